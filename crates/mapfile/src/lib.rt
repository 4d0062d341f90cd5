// The map file: its reader and its writer.
#![tactic(auto)]

pub mod reader;
pub mod writer;

// The bytes that end every map file.
pub const MARK: [u8; 4] = *b"FLD1";

// The length of the trailer, and the greatest length of a file.
pub const TRAILER: usize = 12;

pub const FILE_LIMIT: usize = 65536;
