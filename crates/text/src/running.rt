// What the programs share, and little is proved of but that it is safe: room for a file, a file opened and named, bytes read, text printed.
ghost use Rattle.std.specs.Prelude.{◌≡◌, ℕ, ◌≤◌, List, length, replicate, IfOk, OnOk};
ghost use Rattle.text.specs.Calls.{Leaves};
ghost use Rattle.std.specs.Io.KnownBytes.{Appends};

use crate::Page;
use std::env::{Env, FillError};
use std::fs::Files;
use std::io::{Error, Read, Result, Write};
use std::{fs, str};

// The system's number for bytes that are no text.
const NO_TEXT: i32 = 84;

// Room for the longest file, and for one byte more, by which a longer one is told.
pub fn blank_file() -> [u8; 65537]
    ensures { result ≡ replicate 65537 0 }
{
    [0; 65537]
}

// How many arguments there are, the program's own name among them.
pub fn arg_count(rt: &impl Env) -> usize {
    for i in 0..usize::MAX {
        if let Err(FillError::NotPresent) = rt.arg(i, &mut []) {
            return i;
        }
    }
    usize::MAX
}

// Opens a file. A path is UTF-8 text.
fn open<R: Files>(rt: &R, path: &[u8]) -> Result<R::File> {
    match str::from_utf8(path) {
        Ok(name) => fs::open(rt, name),
        Err(_) => Err(Error::from_raw_os_error(NO_TEXT)),
    }
}

// The words for an error: zeros follow them, or the system's number for it in parentheses.
fn words(told: &[u8]) -> &[u8]
    ensures { length result.now ≤ length told.now }
{
    match told.iter().position(|&b| b == 0 || b == b'(') {
        Some(end) if told[end] == b'(' => &told[..end.saturating_sub(1)],
        Some(end) => &told[..end],
        None => told,
    }
}

// Writes a line: the file, and why it cannot be opened.
fn fail<E: Write>(to: &mut E, path: &[u8], error: Error) -> Result<()> {
    let mut told = [0u8; 128];
    let mut room = &mut told[..];
    let _ = write!(room, "{error}");
    to.write_all(path)?;
    to.write_all(b": ")?;
    to.write_all(words(&told))?;
    to.write_all(b"\n")
}

// Opens the file that argument i names, and prints its name after a word. Where it cannot be opened there is none, and `err` is told why.
pub fn open_named<R: Env + Files, W: Write, E: Write>(
    rt: &R,
    out: &mut W,
    err: &mut E,
    word: &[u8],
    i: usize,
) -> Result<Option<R::File>>
    requires { length word.now ≤ 4 }
{
    let mut room = [0u8; 4096];
    let n = rt.arg(i, &mut room).unwrap_or(0);
    let path = &room[..n];
    match open(rt, path) {
        Ok(file) => {
            let mut line = Page::<65536>::blank();
            line.name(word, path);
            line.print(out)?;
            Ok(Some(file))
        }
        Err(error) => {
            fail(err, path, error)?;
            Ok(None)
        }
    }
}

// Reads until the lent bytes are full or the input ends; how many were read. An error is the reader's own, and leaves open what the bytes are.
pub fn read_front<R: Read>(from: &mut R, file: &mut [u8]) -> Result<usize>
    ensures { IfOk result (λ n. n ≤ length file.new) }
{
    // How many were read is the answer, so they are counted here.
    let mut done = 0;
    while done < file.len() {
        let n = from.read(&mut file[done..])?;
        if n == 0 {
            break;
        }
        done += n;
    }
    Ok(done)
}

impl<const N: usize> Page<N> {
    // Prints what is written. An error is the writer's own, and leaves open how much of it was taken.
    pub fn print<W: Write>(&self, out: &mut W) -> Result<()>
        ensures { OnOk result (Appends (W.contents out.old) (W.contents out.new) self.now) }
    {
        out.write_all(self.text())
    }
}

// Reads a file, and prints the page that is written on it. An error is the reader's or the writer's own. The page is lent: one that is answered is copied.
pub fn filter<R: Read, W: Write, F: FnOnce(&[u8], &mut Page<65536>)>(
    from: &mut R,
    out: &mut W,
    write_page: F,
) -> Result<()>
    requires { F.IsAlwaysCallable write_page }
    ensures { OnOk result ((file page : List ℕ) × Leaves F.FnOnce write_page file page
        × Appends (W.contents out.old) (W.contents out.new) page) }
{
    let mut file = blank_file();
    let n = read_front(from, &mut file)?;
    let mut page = Page::blank();
    write_page(&file[..n], &mut page);
    page.print(out)
}
