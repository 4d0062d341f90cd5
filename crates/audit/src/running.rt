// The little that is not proved: which bytes are read, and that the text of an audit is printed, here and line by line in `audit_log`.

use crate::auditing::audit_log;
use crate::counting::tell_totals;
use crate::heading::top;
use mapfile::reader::read_map;
use mesh::Sizes;
use std::io::{Read, Result, Write};
use text::Page;
use text::running::{blank_file, read_front};
use transfers::say_refusal;

// The longest log that is read.
const LONGEST_LOG: usize = 65536;

// The audit of a log on a map, part by part on a page that is lent.
fn print_audit<W: Write>(
    s: Sizes,
    cells: &[u8],
    log: &[u8],
    page: &mut Page<65536>,
    to: &mut W,
) -> Result<()> {
    let long = log.len() > LONGEST_LOG;
    page.clear();
    top(page, s, long);
    page.print(to)?;
    if long {
        return Ok(());
    }
    let (t, printed) = audit_log(s, cells, log, page, to);
    printed?;
    page.clear();
    tell_totals(page, t);
    page.print(to)
}

// The page for a map file and a log.
fn audit<W: Write>(map: &[u8], log: &[u8], to: &mut W) -> Result<()> {
    let mut cells = [0u8; 4096];
    let mut page = Page::blank();
    match read_map(map, &mut cells) {
        Ok(s) => {
            let n = s.nodes();
            print_audit(s, &cells[..n], log, &mut page, to)
        }
        Err(r) => {
            say_refusal(&mut page, b"the map is refused, ", r);
            page.print(to)
        }
    }
}

// Reads a map file and a log, and prints the page.
pub fn run<M: Read, L: Read, W: Write>(map: &mut M, log: &mut L, out: &mut W) -> Result<()> {
    let mut map_file = blank_file();
    let n = read_front(map, &mut map_file)?;
    let mut log_file = blank_file();
    let k = read_front(log, &mut log_file)?;
    audit(&map_file[..n], &log_file[..k], out)
}
