// Who talks to whom, read from a state. Its sizes and its bytes stay two arguments, in the crates above too: each clause names both, and a state
// that hears is lent as `&mut`, so that a struct of the two would be made anew for each question.
ghost use Rattle.std.specs.Prelude.{◌≡◌, ◌<◌, eqb};
ghost use Rattle.mesh.specs.Mesh.{InRange, nodes, place_of};
ghost use Rattle.mesh.specs.Steps.{next, neighbour};
ghost use Rattle.mesh.specs.Cells.{linked};
ghost use Rattle.talk.specs.State.{own, map_in, pair, says};
ghost use Rattle.states.specs.Six.{Ready, Held};

use mesh::{Place, Sizes};

// Is node k faulty?
fn faulty(state: &[u8], k: usize) -> bool
    requires { Held state.now k }
    ensures { result ≡ eqb (own state.now k) 1 }
{
    state[7 * k] == 1
}

// The place next to node k in direction j, or the edge.
fn next_to(s: Sizes, k: usize, j: usize) -> Option<Place>
    requires { InRange s × (k < nodes s) × (j < 6) }
    ensures { result ≡ next s (place_of s k) j }
{
    s.place(k).step(j, s)
}

// May a word cross from node k in direction j?
#[tactic(auto, unfolding(mesh::specs::Cells::linked))]
fn linked(s: Sizes, state: &[u8], k: usize, j: usize) -> bool
    requires { InRange s × (k < nodes s) × (j < 6) }
    ensures { result ≡ linked (map_in s state.now) (place_of s k) j }
{
    next_to(s, k, j).is_some()
}

// The number of node k's neighbour in direction j; 0 where there is none.
#[tactic(auto, using(mesh::proofs::Steps::next_in, mesh::proofs::Numbers::place_in))]
fn neighbour(s: Sizes, k: usize, j: usize) -> usize
    requires { InRange s × (k < nodes s) × (j < 6) }
    ensures { (result ≡ neighbour s k j) × (result < nodes s) }
{
    match next_to(s, k, j) {
        Some(q) => s.number(q),
        None => 0,
    }
}

// The own byte of that neighbour.
pub fn says(s: Sizes, state: &[u8], k: usize, j: usize) -> u8
    requires { Ready s state.now × (k < nodes s) × (j < 6) }
    ensures { result ≡ says s state.now k j }
{
    state[7 * neighbour(s, k, j)]
}

// Are node k and that neighbour a pair: a working listener and a working speaker?
pub fn pair(s: Sizes, state: &[u8], k: usize, j: usize) -> bool
    requires { Ready s state.now × (k < nodes s) × (j < 6) }
    ensures { result ≡ pair (map_in s state.now) k j }
{
    let q = neighbour(s, k, j);
    !faulty(state, k) & linked(s, state, k, j) & !faulty(state, q)
}
