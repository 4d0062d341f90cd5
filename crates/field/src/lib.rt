// The calls on a state of the talking nodes. Their answers are mesh's.
#![tactic(auto)]

pub mod checks;
pub mod entry;
