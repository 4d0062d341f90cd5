// What is told of a map and of a state.
ghost use Rattle.std.specs.Prelude.{◌≡◌, ◌≤◌};
ghost use Rattle.maps.specs.Shelf.{map_on};
ghost use Rattle.talk.specs.Hear.{outstanding};
ghost use Rattle.talk.specs.Promise.{workers};
ghost use Rattle.states.specs.Six.{Ready};
ghost use Rattle.rounds.specs.Links.{Fit};
ghost use Rattle.rounds.specs.Figures.{how_many_marks, marks_held};

use counts::count_faulty;
use field::entry::outstanding;
use maps::shelf::Shelf;
use mesh::Sizes;

// How many nodes work.
pub fn working(shelf: &Shelf) -> usize
    ensures { (result ≡ workers (map_on shelf.now)) × (result ≤ 4096) }
{
    shelf.sizes.nodes() - count_faulty(shelf.cells)
}

// How much news is outstanding.
#[tactic(auto, using(crate::proofs::Figures::not_refused, crate::proofs::Figures::the_number))]
pub fn news(s: Sizes, o: usize, state: &[u8]) -> usize
    requires { Fit s o state.now }
    ensures { result ≡ outstanding s state.now }
{
    outstanding(s, o, state).unwrap_or(0)
}

// How many marks a byte holds.
fn how_many_marks(b: u8) -> usize
    ensures { (result ≡ how_many_marks b) × (result ≤ 2) }
{
    (b & 6).count_ones() as usize
}

// How many marks the nodes hold.
pub fn marks_held(s: Sizes, state: &[u8]) -> usize
    requires { Ready s state.now }
    ensures { result ≡ marks_held s state.now }
{
    let mut held = 0;
    for node in state.chunks_exact(7) {
        held += how_many_marks(node[0]);
    }
    held
}
