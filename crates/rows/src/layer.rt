// The rows of a layer of a box.
ghost use Rattle.std.specs.Prelude.{◌≡◌, ℕ, ◌+◌, ◌≤◌, ◌<◌, length, get_or};
ghost use Rattle.mesh.specs.Fill.{Filled};
ghost use Rattle.maps.specs.Shelf.{map_on};
ghost use Rattle.rows.specs.Box.{faulty_row, spot, Held, Room, AddedRows};

use crate::Between;
use crate::pack::pack_row;
use crate::unpack::add_row;
use maps::shelf::Shelf;
use mesh::Sizes;

// The faulty nodes of row b of layer c.
fn faulty_row(shelf: &Shelf, g: Between, b: usize, c: usize) -> u16
    requires { Held shelf.now.sizes g × (b ≤ g.y.steps) × (c ≤ g.z.steps) }
    ensures { result ≡ faulty_row (map_on shelf.now) g b c }
{
    pack_row(
        shelf.cells,
        0,
        g.node(shelf.sizes, 0, b, c),
        g.x.steps + 1,
        g.x.down,
    )
}

// The faulty nodes of layer c, row by row.
pub fn faulty_layer(shelf: &Shelf, g: Between, c: usize, rows: &mut [u16])
    requires { Held shelf.now.sizes g × (c ≤ g.z.steps) × (g.y.steps < length rows.old) }
    ensures { Filled (λ b. b) (λ b. faulty_row (map_on shelf.now) g b c) rows.old rows.new (g.y.steps + 1) }
{
    let n = g.y.steps + 1;
    // A copy, since what is behind the reference would be read again for each row: dk_verdict took 8 % more instructions.
    let shelf = *shelf;
    for (b, row) in rows[..n].iter_mut().enumerate() {
        *row = faulty_row(&shelf, g, b, c);
    }
}

// Adds v to the byte of each node of layer c whose bit is 1.
pub fn add_layer(s: Sizes, g: Between, c: usize, rows: &[u16], v: u8, out: &mut [u8])
    requires { Room s g out.old × (g.y.steps < length rows.now) × (c ≤ g.z.steps)
        × ((a b : ℕ) → a ≤ g.x.steps → b ≤ g.y.steps → get_or out.old (spot s g a b c) 0 + v ≤ 255) }
    ensures { AddedRows s g c v rows.now out.old out.new (g.y.steps + 1) }
{
    let w = g.x.steps + 1;
    let n = g.y.steps + 1;
    for (b, bits) in rows[..n].iter().enumerate() {
        add_row(*bits, v, out, g.node(s, 0, b, c), w, g.x.down);
    }
}
