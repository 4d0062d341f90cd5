// The talking nodes at work: words that are lost, repeated, late and out of order, round after round.
#![tactic(auto)]

pub mod chance;
pub mod figuring;
pub mod links;
pub mod rounds;
