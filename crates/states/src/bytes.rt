// Single bytes of a state: how many there are, what a faulty node holds, whether a byte fits what is shown, and the own byte by the mark rule.
ghost use Rattle.std.specs.Prelude.{◌≡◌, ℕ, ◌≤◌};
ghost use Rattle.mesh.specs.Mesh.{InRange};
ghost use Rattle.mesh.specs.Cells.{Map, state_length};
ghost use Rattle.talk.specs.State.{heard};
ghost use Rattle.talk.specs.Sound.{faulty_hears};
ghost use Rattle.states.specs.Six.{Held, fits, quick_rule};

use crate::six::Six;
use mesh::{Place, Sizes};

// How many bytes a state has.
pub fn state_length(s: Sizes) -> usize
    requires { InRange s }
    ensures { result ≡ state_length s }
{
    7 * s.nodes()
}

// What a faulty node holds for each direction.
#[tactic(auto, unfolding(talk::specs::Sound::faulty_hears))]
pub fn faulty_hears() -> u8
    ensures { (m : Map) (p : Place) (j : ℕ) → result ≡ faulty_hears m p j }
{
    0
}

// Is the byte b right where the neighbour shows n?
#[tactic(auto, unfolding(crate::specs::Six::fits))]
pub fn fits(n: u8, b: u8) -> bool
    ensures { result ≡ fits n b }
{
    b | (n & 6) == n
}

// The own byte that the mark rule gives node k, by what it has heard.
#[tactic(auto, using(crate::proofs::Beside::quick_six))]
pub fn rule_byte(s: Sizes, o: usize, state: &[u8], k: usize) -> u8
    requires { InRange s × (o ≤ 7) × Held state.now k }
    ensures { result ≡ quick_rule s o (heard state.now k) }
{
    Six::heard(state, k).ruled(s, o)
}
