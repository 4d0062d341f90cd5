// Reading a state of the talking nodes: its bytes, six at once, and who talks to whom.
#![tactic(auto)]

pub mod bytes;
pub mod pairs;
pub mod sides;
pub mod six;
