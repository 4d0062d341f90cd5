// The report on a map file: its text, proved byte by byte, and the little that reads and prints.
#![tactic(auto)]

pub mod figuring;
pub mod lines;
pub mod reporting;
pub mod running;

// The figures of a map in one orientation.
#[derive(Clone, Copy, Debug, PartialEq, Eq)]
pub struct Figures {
    pub useless: usize,
    pub cannot_reach: usize,
    pub components: usize,
}
