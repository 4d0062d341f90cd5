// The call for the marks of a map. It takes every input.
ghost use Rattle.std.specs.Prelude.{◌≡◌, ◌≤◌, length};
ghost use Rattle.mesh.specs.Mesh.{nodes};
ghost use Rattle.rules.specs.Entry.{marks_answer, marks_written, marks_out};

use crate::bytes::finish;
use crate::sweep::sweep;
use maps::shelf::Shelf;
use mesh::{Refusal, Sizes};

// Refusals 5 and 3.
#[tactic(auto, using(maps::proofs::Shelves::in_order), unfolding(rules::specs::Entry::marks_answer))]
fn marks_answer(shelf: &Shelf, orientation: usize, room: usize) -> Result<(), Refusal>
    ensures { result ≡ marks_answer shelf.now.sizes shelf.now.cells.now orientation room }
{
    if orientation > 7 {
        return Err(Refusal::BadNumber);
    }
    if room < shelf.sizes.nodes() {
        return Err(Refusal::NoRoom);
    }
    Ok(())
}

// The marks of a shelf: useless is stuck in orientation o, can't-reach in the reversed one.
fn mark_all(shelf: &Shelf, o: usize, out: &mut [u8])
    requires { (nodes shelf.now.sizes ≤ length out.old) × (o ≤ 7) }
    ensures { out.new ≡ marks_written shelf.now.sizes shelf.now.cells.now o out.old }
{
    out[..shelf.sizes.nodes()].fill(0);
    sweep(shelf, o, 2, out);
    sweep(shelf, 7 - o, 4, out);
    finish(shelf.cells, out);
}

// The mark bytes of the map, in node order, at the front of out.
#[tactic(auto, using(rules::proofs::Entry::marks_granted), unfolding(rules::specs::Entry::marks_answer))]
pub fn marks(s: Sizes, cells: &[u8], orientation: usize, out: &mut [u8]) -> Result<(), Refusal>
    ensures value { result ≡ marks_answer s cells.now orientation (length out.old) }
    ensures out_after { out.new ≡ marks_out s cells.now orientation out.old }
{
    let shelf = Shelf::of(s, cells)?;
    marks_answer(&shelf, orientation, out.len())?;
    mark_all(&shelf, orientation, out);
    Ok(())
}
