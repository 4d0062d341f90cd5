// The mesh: sizes, places and steps. Its specs/ say what a map's cells are and what the checks answer.
#![tactic(auto)]

pub mod entries;
pub mod numbering;
pub mod refusing;
pub mod stepping;

#[derive(Clone, Copy, Debug, PartialEq, Eq, Hash)]
pub struct Sizes {
    pub w: usize,
    pub h: usize,
    pub d: usize,
}

#[derive(Clone, Copy, Debug, PartialEq, Eq, Hash)]
pub struct Place {
    pub x: usize,
    pub y: usize,
    pub z: usize,
}

// The refusals 1 to 11, in the order of their numbers. A bad cell has its node's number.
#[derive(Clone, Copy, Debug, PartialEq, Eq, Hash)]
pub enum Refusal {
    BadSizes,
    BadLength,
    NoRoom,
    BadCell(usize),
    BadNumber,
    Unsound,
    NoPair,
    NotHeld,
    FaultyEnd,
    NoPath,
    BadFile,
}
