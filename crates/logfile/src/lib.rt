// The log of transfers, read line by line.
#![tactic(auto)]

pub mod reading;

// What a line of a log says: nothing, a transfer from a node to a node, or what is no pair of numbers.
#[derive(Clone, Copy)]
pub enum Entry {
    Nothing,
    Transfer(usize, usize),
    NoPair,
}

// Where a stretch of text ends: at a line feed, at a comment, at a blank, or at a word.
// An enum and no closure: `up_to` and `past` of the definitions take it as a value, so a contract stays one equation with them.
#[derive(Clone, Copy, Debug, PartialEq, Eq)]
pub enum Stop {
    Feed,
    Comment,
    Blank,
    Word,
}
