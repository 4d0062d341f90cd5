// The audit of a log of transfers on a map: what stands above it, the text for each line, and the totals, proved byte by byte.
#![tactic(auto)]

pub mod auditing;
pub mod counting;
pub mod heading;
pub mod running;
pub mod usage;

// How many lines were read; of these, transfers granted, refused for want of a path, and refused otherwise; and lines that are no pair.
#[derive(Clone, Copy, Debug, PartialEq, Eq)]
pub struct Totals {
    pub lines: usize,
    pub granted: usize,
    pub pathless: usize,
    pub refused: usize,
    pub unread: usize,
}
