// The public calls on routes. Each takes every input.
ghost use Rattle.std.specs.Prelude.{◌≡◌, length};
ghost use Rattle.mesh.specs.Mesh.{place_of};
ghost use Rattle.mesh.specs.Answers.{answered};
ghost use Rattle.maps.specs.Shelf.{map_on};
ghost use Rattle.paths.specs.Entries.{check_ends, verdict_answer, route_answer, route_out, reached_answer, reached_out};

use maps::may_end;
use maps::shelf::Shelf;
use mesh::{Place, Refusal, Sizes};
use paths::Grant;
use sweeps::offers::offered;
use sweeps::signed::hops;
use trails::follow::write_route;
use trails::spread::{total, write_reached};

// Refusals 5 and 9.
#[tactic(auto, using(maps::proofs::Shelves::in_order), unfolding(paths::specs::Entries::check_ends))]
fn check_ends(shelf: &Shelf, start: usize, end: usize) -> Result<(), Refusal>
    ensures { result ≡ check_ends shelf.now.sizes shelf.now.cells.now start end }
{
    let n = shelf.sizes.nodes();
    if start >= n || end >= n {
        return Err(Refusal::BadNumber);
    }
    if !may_end(shelf.cells[start]) || !may_end(shelf.cells[end]) {
        return Err(Refusal::FaultyEnd);
    }
    Ok(())
}

// The places of both: the same refusals.
#[tactic(auto, using(crate::proofs::Ends::ends_granted))]
fn ends(shelf: &Shelf, start: usize, end: usize) -> Result<(Place, Place), Refusal>
    ensures { result ≡ answered (check_ends shelf.now.sizes shelf.now.cells.now start end) (place_of shelf.now.sizes start, place_of shelf.now.sizes end) }
{
    check_ends(shelf, start, end)?;
    Ok((shelf.sizes.place(start), shelf.sizes.place(end)))
}

// The hops and the offered set at the start: refusals 1, 2, 4, 5, 9 and 10.
#[tactic(auto, using(crate::proofs::Ends::ends_granted, crate::proofs::Ends::no_path, crate::proofs::Ends::a_path, rows::proofs::Box::in_largest), unfolding(paths::specs::Entries::verdict_answer, paths::specs::Entries::verdict_check, paths::specs::Entries::check_ends))]
pub fn verdict(s: Sizes, cells: &[u8], start: usize, end: usize) -> Result<Grant, Refusal>
    ensures { result ≡ verdict_answer s cells.now start end }
{
    let shelf = Shelf::of(s, cells)?;
    let (p, e) = ends(&shelf, start, end)?;
    let hops = hops(p, e);
    let offered = offered(&shelf, p, e);
    if (offered == 0) & (hops > 0) {
        return Err(Refusal::NoPath);
    }
    Ok(Grant { hops, offered })
}

// The nodes of the route at the front of out, and how many they are: refusals 1, 2, 4, 5, 9, 10 and 3.
#[tactic(auto, using(crate::proofs::Ends::ends_granted), unfolding(paths::specs::Entries::route_answer, paths::specs::Entries::route_check, paths::specs::Entries::verdict_check, paths::specs::Entries::check_ends, paths::specs::Entries::route_written))]
pub fn route(
    s: Sizes,
    cells: &[u8],
    start: usize,
    end: usize,
    out: &mut [u16],
) -> Result<usize, Refusal>
    ensures value { result ≡ route_answer s cells.now start end (length out.old) }
    ensures out_after { out.new ≡ route_out s cells.now start end out.old }
{
    let shelf = Shelf::of(s, cells)?;
    let (start, end) = ends(&shelf, start, end)?;
    write_route(&shelf, start, end, out)
}

// One byte for each node at the front of out, 1 where preferred steps towards the end lead from the start to it, and how many they are:
// refusals 1, 2, 4, 5, 9 and 3.
#[tactic(auto, using(crate::proofs::Ends::ends_granted, trails::proofs::Spreading::front_bits, trails::proofs::Spreading::reached_0), unfolding(paths::specs::Entries::reached_answer, paths::specs::Entries::reached_check, paths::specs::Entries::check_ends, paths::specs::Entries::reached_written))]
pub fn reached(
    s: Sizes,
    cells: &[u8],
    start: usize,
    end: usize,
    out: &mut [u8],
) -> Result<usize, Refusal>
    ensures value { result ≡ reached_answer s cells.now start end (length out.old) }
    ensures out_after { out.new ≡ reached_out s cells.now start end out.old }
{
    let shelf = Shelf::of(s, cells)?;
    let (start, end) = ends(&shelf, start, end)?;
    let n = shelf.sizes.nodes();
    if out.len() < n {
        return Err(Refusal::NoRoom);
    }
    write_reached(&shelf, start, end, out);
    Ok(total(out, n))
}
