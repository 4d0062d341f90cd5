// The call for the components of a map. It takes every input.
ghost use Rattle.std.specs.Prelude.{◌≡◌, ℕ, get_or};
ghost use Rattle.mesh.specs.Mesh.{InRange};
ghost use Rattle.mesh.specs.Answers.{answer_value, accepted};
ghost use Rattle.rules.specs.Entry.{marks_answer};
ghost use Rattle.components.specs.Outcome.{Gridded, Answered, stored_of, Computed};
ghost use Rattle.mesh.specs.declared.Refusal.{Refusal};

use floods::Found;
use floods::labelling::label;
use grids::Grid;
use marks::entry::marks;
use marks::sweep::blank_marks;
use mesh::{Refusal, Sizes};

// The grid of a map, in an empty one: refusals 1, 2, 4 and 5. On a refusal it stays empty.
fn grid_of(s: Sizes, cells: &[u8], orientation: usize, grid: &mut Grid) -> Result<(), Refusal>
    requires { (j : ℕ) → get_or grid.old.cells j 0 ≡ 0 }
    ensures { (result ≡ marks_answer s cells.now orientation 4096) × Gridded s cells.now orientation result grid.new.cells }
{
    let mut marked = blank_marks();
    marks(s, cells, orientation, &mut marked)?;
    let n = s.nodes();
    grid.lay(s, &marked[..n]);
    Ok(())
}

// How many layers are to be looked through: none on a refusal.
fn layers(checked: Result<(), Refusal>, d: usize) -> usize
    ensures { result ≡ answer_value checked d }
{
    checked.map_or(0, |()| d)
}

// The table, if the map is in order and there is room for it and for as many records as there are: refusal 3.
#[tactic(auto, using(crate::proofs::Outcomes::no_row))]
fn settle(
    s: Sizes,
    checked: Result<(), Refusal>,
    grid: &Grid,
    table: &mut [u16],
    count: usize,
    room: usize,
) -> Result<usize, Refusal>
    requires { checked ≡ accepted → InRange s }
    ensures { Answered s checked grid.now.cells count room table.old table.new result }
{
    checked?;
    if table.len() < s.nodes() {
        return Err(Refusal::NoRoom);
    }
    if room < count {
        return Err(Refusal::NoRoom);
    }
    grid.copy_out(s, table);
    Ok(count)
}

// How many records are to be stored.
fn stored(answer: Result<usize, Refusal>) -> usize
    ensures { result ≡ stored_of answer }
{
    answer.unwrap_or(0)
}

// All of the call but the records' storing: refusals 1, 2, 4, 5 and 3, and the table. What is found is what is to be stored: none on a refusal.
// There is one way through: where the map is refused, an empty grid is looked through.
pub fn compute(
    s: Sizes,
    cells: &[u8],
    orientation: usize,
    table: &mut [u16],
    room: usize,
    found: &mut Found,
) -> Result<usize, Refusal>
    ensures { Computed s cells.now orientation room table.old table.new result found.new }
{
    let mut grid = Grid::blank();
    let a = grid_of(s, cells, orientation, &mut grid);
    label(&mut grid, s.h, layers(a, s.d), found);
    let answer = settle(s, a, &grid, table, found.count, room);
    found.truncate(stored(answer));
    answer
}
