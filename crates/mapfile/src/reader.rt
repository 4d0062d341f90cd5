// Reading a map file.
ghost use Rattle.std.specs.Prelude.{◌≡◌, ◌+◌, ◌-◌, ◌≤◌, ◌<◌, length, take, drop};
ghost use Rattle.format.specs.Format.{trailer_at, has_mark, sizes_in, distance_in};
ghost use Rattle.format.specs.Entry.{check_frame, check_trailer, read_check, read_answer, read_out};

use crate::{FILE_LIMIT, MARK, TRAILER};
use maps::check_map;
use mesh::{Refusal, Sizes};
use octets::{little_endian, put};

// Byte i of the trailer.
fn trailer_at(file: &[u8], i: usize) -> u8
    requires { (12 ≤ length file.now) × (i < 12) }
    ensures { result ≡ trailer_at file.now i }
{
    file[file.len() - TRAILER + i]
}

// Does the file end in the mark?
fn has_mark(file: &[u8]) -> bool
    requires { 12 ≤ length file.now }
    ensures { result ≡ has_mark file.now }
{
    for (i, &byte) in MARK.iter().enumerate() {
        if trailer_at(file, 8 + i) != byte {
            return false;
        }
    }
    true
}

// The sizes that the trailer says.
fn sizes_in(file: &[u8]) -> Sizes
    requires { 12 ≤ length file.now }
    ensures { result ≡ sizes_in file.now }
{
    Sizes {
        w: trailer_at(file, 0) as usize,
        h: trailer_at(file, 1) as usize,
        d: trailer_at(file, 2) as usize,
    }
}

// The distance that the trailer says.
fn distance_in(file: &[u8]) -> usize
    requires { 12 ≤ length file.now }
    ensures { result ≡ distance_in file.now }
{
    little_endian(
        trailer_at(file, 4),
        trailer_at(file, 5),
        trailer_at(file, 6),
        trailer_at(file, 7),
    )
}

// The n bytes that end where the trailer begins.
fn cells_in(file: &[u8], n: usize) -> &[u8]
    requires { n + 12 ≤ length file.now }
    ensures { result.now ≡ take n (drop (length file.now - (n + 12)) file.now) }
{
    let start = file.len() - (n + TRAILER);
    &file[start..start + n]
}

// Length, mark and zero byte.
#[tactic(auto, using(format::proofs::Refusals::between_least), unfolding(format::specs::Entry::check_frame))]
fn check_frame(file: &[u8]) -> Result<(), Refusal>
    ensures { result ≡ check_frame file.now }
{
    let fits = (TRAILER <= file.len()) & (file.len() <= FILE_LIMIT);
    if !fits {
        return Err(Refusal::BadFile);
    }
    let framed = has_mark(file) & (trailer_at(file, 3) == 0);
    if !framed {
        return Err(Refusal::BadFile);
    }
    Ok(())
}

// After these the sizes, and the distance.
#[tactic(auto, using(format::proofs::Refusals::frame_least, mesh::proofs::Answers::sizes_of), unfolding(format::specs::Entry::check_trailer))]
fn check_trailer(file: &[u8]) -> Result<(), Refusal>
    ensures { result ≡ check_trailer file.now }
{
    check_frame(file)?;
    let s = sizes_in(file);
    if !s.in_range() {
        return Err(Refusal::BadSizes);
    }
    let distance = s.nodes() + TRAILER;
    let reaches = (distance_in(file) == distance) & (distance <= file.len());
    if !reaches {
        return Err(Refusal::BadFile);
    }
    Ok(())
}

// After these the room, and the cells.
#[tactic(auto, using(format::proofs::Refusals::trailer_says, format::proofs::Refusals::read_cells, format::proofs::Refusals::cells_part), unfolding(format::specs::Entry::read_check))]
fn check_file(file: &[u8], room: usize) -> Result<(), Refusal>
    ensures { result ≡ read_check file.now room }
{
    check_trailer(file)?;
    let s = sizes_in(file);
    let n = s.nodes();
    if n > room {
        return Err(Refusal::NoRoom);
    }
    check_map(s, cells_in(file, n))
}

// Reads a map file: its cells go to the front of the lent bytes. Refusals 11, 1, 11, 3, 4.
#[tactic(auto, using(format::proofs::Order::read_passes, format::proofs::Refusals::cells_part, format::proofs::Refusals::cells_size, crate::proofs::Stored::read_stored), unfolding(format::specs::Entry::read_answer))]
pub fn read_map(file: &[u8], cells: &mut [u8]) -> Result<Sizes, Refusal>
    ensures { (result ≡ read_answer file.now (length cells.old))
        × (cells.new ≡ read_out file.now cells.old) }
{
    check_file(file, cells.len())?;
    let s = sizes_in(file);
    let n = s.nodes();
    put(cells_in(file, n), cells, 0);
    Ok(s)
}
