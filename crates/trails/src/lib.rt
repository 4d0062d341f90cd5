// What is reached, from a sweep from the start; and the route, which is the way through the layers of a sweep from the end.
#![tactic(auto)]

pub mod follow;
pub mod spread;
