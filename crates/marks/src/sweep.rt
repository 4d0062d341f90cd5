// The sweep for one mark: which nodes are shut, that is faulty or stuck, layer by layer from the corner ahead. It counts in steps from there, so
// that all orientations are one case. Bit a of row b is 1 if the node a and b steps on is shut; each layer goes over the one before, in sixteen numbers.
ghost use Rattle.std.specs.Prelude.{◌≡◌, ℕ, ◌+◌, ◌≤◌, ◌<◌, length, get_or, replicate};
ghost use Rattle.mesh.specs.Mesh.{InRange, nodes};
ghost use Rattle.maps.specs.Shelf.{map_on};
ghost use Rattle.rows.specs.Box.{Held};
ghost use Rattle.marks.specs.Sweep.{axis, whole, beyond, Over, NoneStuck, Swept};

use crate::blocked::any_blocked;
use maps::shelf::Shelf;
use mesh::Sizes;
use rows::layer::{add_layer, faulty_layer};
use rows::{Between, Run, sweep_row};

// A byte for each node of the largest mesh.
pub fn blank_marks() -> [u8; 4096]
    ensures { result ≡ replicate 4096 0 }
{
    [0; 4096]
}

// An axis of n from its end ahead, where it runs down or up.
fn axis(down: bool, n: usize) -> Run
    requires { 0 < n }
    ensures { result ≡ axis down n }
{
    let steps = n - 1;
    if down {
        return Run {
            from: 0,
            steps,
            down: false,
        };
    }
    Run {
        from: steps,
        steps,
        down: true,
    }
}

// All nodes, from the corner ahead.
fn whole(s: Sizes, o: usize) -> Between
    requires { InRange s }
    ensures { result ≡ whole s o }
{
    Between {
        x: axis(o % 2 == 1, s.w),
        y: axis(o / 2 % 2 == 1, s.h),
        z: axis(o / 4 % 2 == 1, s.d),
    }
}

// Layer c, over the layer before it; not 0 if one of its nodes is stuck. `rows` goes by an index: of what a `zip` over `iter_mut` wrote no
// proof knows.
fn over(shelf: &Shelf, g: Between, c: usize, rows: &mut [u16]) -> u16
    requires { Held shelf.now.sizes g × (length rows.old ≡ 16) × (c ≤ g.z.steps) }
    ensures { Over (map_on shelf.now) g c rows.old rows.new (g.y.steps + 1)
        × (result ≡ 0 → NoneStuck (map_on shelf.now) g c rows.new) }
{
    let n = g.y.steps + 1;
    let mut faulty = [0u16; 16];
    faulty_layer(shelf, g, c, &mut faulty);
    let mut last: u16 = 0;
    let mut stuck: u16 = 0;
    for (b, &dead) in faulty[..n].iter().enumerate() {
        let may = dead | (last & rows[b]);
        last = sweep_row(may, dead, may);
        rows[b] = last;
        stuck |= last ^ dead;
    }
    stuck
}

// The rows before the first layer: beyond the edge nothing is shut, and where Z does not count nothing is asked of it.
fn beyond(s: Sizes) -> [u16; 16]
    ensures { result ≡ beyond s }
{
    if s.d < 2 {
        return [65535; 16];
    }
    [0; 16]
}

// Adds v to the byte of each working node that is stuck in orientation o; layers without one are left out.
pub(crate) fn sweep(shelf: &Shelf, o: usize, v: u8, out: &mut [u8])
    requires { (nodes shelf.now.sizes ≤ length out.old) × ((k : ℕ) → k < nodes shelf.now.sizes → get_or out.old k 0 + v ≤ 255) }
    ensures { Swept (map_on shelf.now) o v out.old out.new }
{
    if !any_blocked(shelf, o) {
        return;
    }
    let s = shelf.sizes;
    let g = whole(s, o);
    let mut rows = beyond(s);
    for c in 0..s.d {
        let stuck = over(shelf, g, c, &mut rows);
        if stuck != 0 {
            add_layer(s, g, c, &rows, v, out);
        }
    }
}
