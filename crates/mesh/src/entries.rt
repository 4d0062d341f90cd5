// The public calls on places. Each takes every input.
ghost use Rattle.std.specs.Prelude.{◌≡◌};
ghost use Rattle.mesh.specs.Answers.{number_answer, place_answer, step_answer};

use crate::{Place, Refusal, Sizes};

// The number of a place: refusals 1 and 5.
#[tactic(auto, using(crate::proofs::Answers::sizes_of, crate::proofs::Answers::inside_of), unfolding(crate::specs::Answers::number_answer))]
pub fn number_of(s: Sizes, p: Place) -> Result<usize, Refusal>
    ensures { result ≡ number_answer s p }
{
    if !s.in_range() {
        return Err(Refusal::BadSizes);
    }
    if !s.has(p) {
        return Err(Refusal::BadNumber);
    }
    Ok(s.number(p))
}

// The place of a node: refusals 1 and 5.
#[tactic(auto, using(crate::proofs::Answers::sizes_of), unfolding(crate::specs::Answers::place_answer))]
pub fn place_of(s: Sizes, k: usize) -> Result<Place, Refusal>
    ensures { result ≡ place_answer s k }
{
    if !s.in_range() {
        return Err(Refusal::BadSizes);
    }
    if k >= s.nodes() {
        return Err(Refusal::BadNumber);
    }
    Ok(s.place(k))
}

// A step from a place: refusals 1 and 5.
#[tactic(auto, using(crate::proofs::Answers::sizes_of, crate::proofs::Answers::inside_of), unfolding(crate::specs::Answers::step_answer))]
pub fn step_from(s: Sizes, p: Place, direction: usize) -> Result<Option<Place>, Refusal>
    ensures { result ≡ step_answer s p direction }
{
    if !s.in_range() {
        return Err(Refusal::BadSizes);
    }
    if !s.has(p) | (direction > 5) {
        return Err(Refusal::BadNumber);
    }
    Ok(p.step(direction, s))
}
