// What a component is, and the call's equations: definitions and their laws, in specs/ and proofs/. Its only code is the record that they speak of.
#![tactic(auto)]

// A component: how many nodes it has, and the least and the greatest coordinate on each axis.
#[repr(C)]
#[derive(Debug, Clone, Copy, PartialEq, Eq, Hash)]
pub struct Component {
    pub count: u16,
    pub x0: u8,
    pub y0: u8,
    pub z0: u8,
    pub x1: u8,
    pub y1: u8,
    pub z1: u8,
}
