// The sweep by rows: bit a of row b is 1 if the node a and b steps away is seen. Each layer goes over the one before, in sixteen numbers.
ghost use Rattle.std.specs.Prelude.{◌≡◌, ◌+◌, ◌≤◌, ◌<◌, length};
ghost use Rattle.mesh.specs.Tools.{bit};
ghost use Rattle.mesh.specs.Cells.{Map};
ghost use Rattle.rows.specs.Box.{FaultyRows};
ghost use Rattle.sweeps.specs.Sweep.{Layers, Layer, Rows, seed, seen_at};

use crate::Ways;
use rows::{Between, full, sweep_row};

// Layer c, with these faulty nodes, over the layer before it. The corner is seen by itself, whether or not it may be passed. `rows` goes by
// an index: of what a `zip` over `iter_mut` wrote no proof knows.
fn sweep_rows(g: Between, c: usize, faulty: &[u16], rows: &mut [u16])
    requires { Rows g faulty.now rows.old }
    ensures { (length rows.new ≡ length rows.old)
        × ((m : Map) → c ≤ g.z.steps → FaultyRows m g c faulty.now → Layers m g c (c + 1) rows.old rows.new) }
{
    let n = g.y.steps + 1;
    let all = full(g.x.steps + 1);
    let mut first = (c == 0) as u16;
    let mut last: u16 = 0;
    for (b, &dead) in faulty[..n].iter().enumerate() {
        let pass = (all - dead) | first;
        last = sweep_row(pass, last | rows[b], pass);
        rows[b] = last;
        first = 0;
    }
}

// What there is before the first layer: only the corner is seen.
pub fn seeded() -> [u16; 16]
    ensures { result ≡ seed }
{
    let mut rows = [0u16; 16];
    rows[0] = 1;
    rows
}

// Bit a of row b, or that of the node x steps nearer to the corner, y rows back; 0 if no step is left.
pub fn seen_at(rows: &[u16], left: usize, a: usize, x: usize, b: usize, y: usize) -> u8
    requires { (a < 16) × (b < length rows.now) × (0 < left → (x ≤ a) × (y ≤ b)) }
    ensures { result ≡ bit (seen_at rows.now left a x b y) }
{
    if left == 0 {
        return 0;
    }
    ((rows[b - y] >> (a - x)) % 2) as u8
}

// Layer c by `sweep_rows`, and the ways into its last node. The layer before is read where this one goes over it.
pub fn over(g: Between, c: usize, faulty: &[u16], rows: &mut [u16]) -> Ways
    requires { Rows g faulty.now rows.old }
    ensures { (length rows.new ≡ length rows.old)
        × ((m : Map) → c ≤ g.z.steps → FaultyRows m g c faulty.now → Layer m g c rows.old rows.new result) }
{
    let a = g.x.steps;
    let b = g.y.steps;
    let z = seen_at(rows, c, a, 0, b, 0);
    sweep_rows(g, c, faulty, rows);
    Ways {
        x: seen_at(rows, a, a, 1, b, 0),
        y: seen_at(rows, b, a, 0, b, 1),
        z,
    }
}
