// The marks of a map. Its specs/ say how it is swept; it needs no type of its own.
#![tactic(auto)]

pub mod blocked;
pub mod bytes;
pub mod entry;
pub mod sweep;
