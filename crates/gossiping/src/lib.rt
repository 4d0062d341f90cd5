// What is printed of the talking nodes at work on a map file: what is known after each round.
#![tactic(auto)]

pub mod lines;
pub mod running;
pub mod talking;
pub mod texting;
