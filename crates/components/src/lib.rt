// The components of a map: the call that finds them. What is found is defined in touching.
#![tactic(auto)]

pub mod entry;
pub mod storing;

pub use floods::Found;
