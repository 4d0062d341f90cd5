// The sweep of the nodes between two places, from one of them on: which are seen, and the offered set that follows.
#![tactic(auto)]

pub mod bits;
pub mod boxes;
pub mod offers;
pub mod signed;

// On each axis, 1 if the node one step nearer to the corner where a sweep began is there and seen, else 0.
#[derive(Clone, Copy, Debug, PartialEq, Eq, Hash)]
pub struct Ways {
    pub x: u8,
    pub y: u8,
    pub z: u8,
}
