// What a cell says of its node, and the check of a map.
#![tactic(auto)]

ghost use Rattle.std.specs.Prelude.{◌≡◌, length, ltb};
ghost use Rattle.mesh.specs.Tools.{bit};
ghost use Rattle.mesh.specs.Mesh.{nodes};
ghost use Rattle.mesh.specs.Cells.{faulty_cell, may_pass, may_end, bad_cell, first_bad};
ghost use Rattle.mesh.specs.Answers.{check_map};

pub mod shelf;

use mesh::{Refusal, Sizes};

// The greatest byte that is a cell.
const CELL_LIMIT: u8 = 1;

// Does the node count as faulty?
#[tactic(auto, unfolding(mesh::specs::Cells::faulty_cell))]
pub fn faulty_cell(cell: u8) -> bool
    ensures { result ≡ faulty_cell cell }
{
    cell == 1
}

// The same as a byte, 1 or 0, for code that joins bytes without a branch.
pub fn faulty_bit(cell: u8) -> u8
    ensures { result ≡ bit (faulty_cell cell) }
{
    faulty_cell(cell) as u8
}

// May a path pass through the node?
#[tactic(auto, unfolding(mesh::specs::Cells::may_pass))]
pub fn may_pass(cell: u8) -> bool
    ensures { result ≡ may_pass cell }
{
    !faulty_cell(cell)
}

// May a path start or end at the node?
#[tactic(auto, unfolding(mesh::specs::Cells::may_end))]
pub fn may_end(cell: u8) -> bool
    ensures { result ≡ may_end cell }
{
    !faulty_cell(cell)
}

// Is the byte no cell for node k? So far all nodes have the same cells.
#[tactic(auto, unfolding(mesh::specs::Cells::bad_cell))]
fn bad_cell(s: Sizes, k: usize, cell: u8) -> bool
    ensures { result ≡ bad_cell s k cell }
{
    cell > CELL_LIMIT
}

// Is there a bad cell? No branch and no way out: all cells are looked at, many at a time.
fn any_bad(s: Sizes, cells: &[u8]) -> bool
    ensures { result ≡ ltb (first_bad (bad_cell s) cells.now) (length cells.now) }
{
    let mut bad = false;
    for (k, &cell) in cells.iter().enumerate() {
        bad |= bad_cell(s, k, cell);
    }
    bad
}

// The number of the first bad cell, z outermost; the count of nodes where there is none. No `position`: 01, "Forms for each place", names this form.
fn first_bad(s: Sizes, cells: &[u8]) -> usize
    requires { length cells.now ≡ nodes s }
    ensures { result ≡ first_bad (bad_cell s) cells.now }
{
    let mut k = 0;
    'scan: for z in 0..s.d {
        for y in 0..s.h {
            for x in 0..s.w {
                if bad_cell(s, k, cells[k]) {
                    break 'scan;
                }
                k += 1;
            }
        }
    }
    k
}

// Refusals 1, 2 and 4.
#[tactic(auto, using(mesh::proofs::Answers::sizes_of, mesh::proofs::Answers::map_1))]
pub fn check_map(s: Sizes, cells: &[u8]) -> Result<(), Refusal>
    ensures { result ≡ check_map s cells.now }
{
    if !s.in_range() {
        return Err(Refusal::BadSizes);
    }
    if cells.len() != s.nodes() {
        return Err(Refusal::BadLength);
    }
    if any_bad(s, cells) {
        let k = first_bad(s, cells);
        return Err(Refusal::BadCell(k));
    }
    Ok(())
}
