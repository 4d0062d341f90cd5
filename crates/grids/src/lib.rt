// The grid that the flood works on: the mesh laid into it, and the numbers copied out of it, row by row.
#![tactic(auto)]

ghost use Rattle.std.specs.Prelude.{◌≡◌, ℕ, ◌+◌, ◌*◌, ◌<◌, ◌≤◌, List, length, get_or, replicate};
ghost use Rattle.mesh.specs.Mesh.{InRange, nodes};
ghost use Rattle.mesh.specs.Fill.{Filled};
ghost use Rattle.grids.specs.Grid.{grid_size, spot, shade, grid_of};
ghost use Rattle.grids.specs.Layout.{RowOf, Laid, Copied, copied};

use mesh::{Place, Sizes};

// What the grid holds at an unsafe node that has no number yet.
pub const UNSEEN: u16 = 65535;

// The places of a row: one more than a mesh can have, so that beyond its edge there is an empty one.
pub const ROW: usize = 17;

// The places of a layer: 17 rows, one more than a mesh can have.
pub const LAYER: usize = 289;

// Where the mesh begins: a step back on each axis leads from there to place 0.
pub const FIRST: usize = 307;

// The places of the grid: those before the mesh, and 17 layers. The last spot is 4912, and a step leads at most 306 further.
pub const SIZE: usize = 5220;

// The grid: what each of its places holds.
#[derive(Drop)]
pub struct Grid {
    pub cells: [u16; SIZE],
    ghost whole: { length cells ≡ grid_size },
}

// Where a row of the mesh begins: its first node, and that node's place in the grid.
#[derive(Clone, Copy)]
struct Row {
    node: usize,
    spot: usize,
}

// What a mark byte is in the grid.
fn shade(mark: u8) -> u16
    ensures { result ≡ shade mark }
{
    if mark == 0 { 0 } else { UNSEEN }
}

// Where the row with y and z begins.
fn row_of(s: Sizes, y: usize, z: usize) -> Row
    requires { InRange s × (y < s.h) × (z < s.d) }
    ensures { RowOf s y z result.node result.spot }
{
    let node = s.number(Place { x: 0, y, z });
    let spot = FIRST + (ROW * y + LAYER * z);
    Row { node, spot }
}

// A row of w marks that begins at node k goes into the grid at a spot. An index into the grid: of what a `zip` over `iter_mut` wrote no proof knows.
fn lay_row(marks: &[u8], grid: &mut [u16], w: usize, k: usize, at: usize)
    requires { (k + w ≤ length marks.now) × (at + w ≤ length grid.old) }
    ensures { Filled (λ x. at + x) (λ x. shade (get_or marks.now (k + x) 0)) grid.old grid.new w }
{
    for (x, &mark) in marks[k..k + w].iter().enumerate() {
        grid[at + x] = shade(mark);
    }
}

// A row of the grid goes into the table at node k.
fn copy_row(grid: &[u16], table: &mut [u16], w: usize, k: usize, at: usize)
    requires { (k + w ≤ length table.old) × (at + w ≤ length grid.now) }
    ensures { Filled (λ x. k + x) (λ x. get_or grid.now (at + x) 0) table.old table.new w }
{
    table[k..k + w].copy_from_slice(&grid[at..at + w]);
}

impl Grid {
    // An empty grid.
    pub fn blank() -> Grid
        ensures { result.cells ≡ replicate grid_size 0 }
    {
        Grid { cells: [0; SIZE] }
    }

    // The rows of layer z go into the grid.
    fn lay_layer(&mut self, s: Sizes, marks: &[u8], z: usize)
        requires { InRange s × (z < s.d) × (length marks.now ≡ nodes s) × Laid s marks.now (307 + 289 * z) self.old.cells }
        ensures { Laid s marks.now (307 + 289 * (z + 1)) self.new.cells }
    {
        for y in 0..s.h {
            let row = row_of(s, y, z);
            lay_row(marks, &mut self.cells, s.w, row.node, row.spot);
        }
    }

    // Lays a mesh's mark bytes into an empty grid.
    pub fn lay(&mut self, s: Sizes, marks: &[u8])
        requires { InRange s × (length marks.now ≡ nodes s) × ((j : ℕ) → get_or self.old.cells j 0 ≡ 0) }
        ensures { self.new.cells ≡ grid_of s marks.now }
    {
        for z in 0..s.d {
            self.lay_layer(s, marks, z);
        }
    }

    // The rows of layer z go into the table. The walk is that of `lay_layer`: one function with a closure would ask of it what these two promise.
    fn copy_layer(&self, s: Sizes, table: &mut [u16], z: usize)
        requires { InRange s × (z < s.d) × (nodes s ≤ length table.old) }
        ensures { (old : List ℕ) → Copied s self.now.cells old (s.w * (s.h * z)) table.old
            → Copied s self.now.cells old (s.w * (s.h * (z + 1))) table.new }
    {
        for y in 0..s.h {
            let row = row_of(s, y, z);
            copy_row(&self.cells, table, s.w, row.node, row.spot);
        }
    }

    // Copies the nodes' numbers to the front of the table.
    pub fn copy_out(&self, s: Sizes, table: &mut [u16])
        requires { InRange s × (nodes s ≤ length table.old) }
        ensures { table.new ≡ copied s self.now.cells table.old }
    {
        for z in 0..s.d {
            self.copy_layer(s, table, z);
        }
    }
}
