// The route: the layers of a sweep from the end stand in a table, row b of layer c at 16 * c + b, and the way from the start goes through them.
ghost use Rattle.std.specs.Prelude.{◌≡◌, ◌+◌, ◌*◌, ◌≤◌, ◌<◌, length, get_or};
ghost use Rattle.mesh.specs.Mesh.{Inside, InRange, number};
ghost use Rattle.mesh.specs.Fill.{Filled};
ghost use Rattle.maps.specs.Shelf.{map_on};
ghost use Rattle.rows.specs.Box.{largest, reach, far, Held};
ghost use Rattle.sweeps.specs.Sweep.{EndsOn, WaysTo};
ghost use Rattle.trails.specs.Table.{Table, ways_in, nearest, trail, routed_answer, routed_out};

use maps::shelf::Shelf;
use mesh::{Place, Refusal, Sizes};
use rows::Between;
use rows::layer::faulty_layer;
use sweeps::Ways;
use sweeps::bits::{over, seeded, seen_at};
use sweeps::boxes::between;
use sweeps::offers::leads_on;
use sweeps::signed::hops;

// An empty table.
fn blank() -> [u16; 256]
    ensures { length result ≡ 256 }
{
    [0u16; 256]
}

// The rows of layer c into the table, one by one: the edit `rows_across_the_table` turns the place of one row.
fn lay(c: usize, rows: &[u16], table: &mut [u16])
    requires { (length rows.now ≡ 16) × (length table.old ≡ 256) × (c < 16) }
    ensures { Filled (λ b. 16 * c + b) (λ b. get_or rows.now b 0) table.old table.new 16 }
{
    for (b, &row) in rows.iter().enumerate() {
        table[16 * c + b] = row;
    }
}

// Every layer of a box into the table, and the ways into the far corner. A loop of its own, as `ways` (sweeps) says.
fn lay_all(shelf: &Shelf, g: Between, table: &mut [u16]) -> Ways
    requires { Held shelf.now.sizes g × (length table.old ≡ 256) }
    ensures { WaysTo (map_on shelf.now) g (far g) result × Table (map_on shelf.now) g (g.z.steps + 1) table.new }
{
    let n = g.z.steps + 1;
    let mut rows = seeded();
    let mut faulty = [0u16; 16];
    let mut w = Ways { x: 0, y: 0, z: 0 };
    for c in 0..n {
        faulty_layer(shelf, g, c, &mut faulty);
        w = over(g, c, &faulty, &mut rows);
        lay(c, &rows, table);
    }
    w
}

// The ways into the node t steps from the end: from the same row, the row before, and the layer before.
fn ways_in(table: &[u16], t: Place) -> Ways
    requires { (length table.now ≡ 256) × Inside largest t }
    ensures { result ≡ ways_in table.now t }
{
    let i = 16 * t.z + t.y;
    Ways {
        x: seen_at(table, t.x, t.x, 1, i, 0),
        y: seen_at(table, t.y, t.x, 0, i, 1),
        z: seen_at(table, t.z, t.x, 0, i, 16),
    }
}

// One step nearer to the end: X comes before Y and Y before Z, as the directions are numbered.
fn step_nearer(table: &[u16], t: Place) -> Place
    requires { (length table.now ≡ 256) × Inside largest t }
    ensures { result ≡ nearest table.now t }
{
    let w = ways_in(table, t);
    if w.x == 1 {
        Place { x: t.x - 1, ..t }
    } else if w.y == 1 {
        Place { y: t.y - 1, ..t }
    } else if w.z == 1 {
        Place { z: t.z - 1, ..t }
    } else {
        t
    }
}

// The first n nodes of the way from the far corner.
fn follow(s: Sizes, g: Between, table: &[u16], n: usize, out: &mut [u16])
    requires { InRange s × Held s g × (length table.now ≡ 256) × (n ≤ length out.old) }
    ensures { Filled (λ i. i) (λ i. number s (reach g (trail g table.now i))) out.old out.new n }
{
    let mut t = g.far();
    for node in out[..n].iter_mut() {
        *node = g.node(s, t.x, t.y, t.z) as u16;
        t = step_nearer(table, t);
    }
}

// The route from p to e: refusals 10 and 3.
pub fn write_route(shelf: &Shelf, p: Place, e: Place, out: &mut [u16]) -> Result<usize, Refusal>
    requires { EndsOn (map_on shelf.now) p e }
    ensures { (result ≡ routed_answer (map_on shelf.now) p e (length out.old))
        × (out.new ≡ routed_out (map_on shelf.now) p e out.old) }
{
    let h = hops(p, e);
    let n = h + 1;
    let g = between(e, p);
    let mut table = blank();
    let w = lay_all(shelf, g, &mut table);
    if !leads_on(h, w) {
        return Err(Refusal::NoPath);
    }
    if out.len() < n {
        return Err(Refusal::NoRoom);
    }
    follow(shelf.sizes, g, &table, n, out);
    Ok(n)
}
