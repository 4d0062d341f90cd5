// The picture of a refusal: the nodes between start and end, a symbol for each, proved byte by byte.
#![tactic(auto)]

pub mod drawing;
pub mod ends;
pub mod symbols;
