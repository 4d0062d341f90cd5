// Reading a log of transfers: what a line says.
ghost use Rattle.std.specs.Prelude.{◌≡◌, [], ◌+◌, ◌<◌, ◌≤◌, length, get_or, drop};
ghost use Rattle.logfile.specs.Log.{blank, stops, before, up_to, past, next_word, lines_of, number_of, entry_of};
ghost use Rattle.logfile.specs.declared.Stop.TheVariants.{Feed};

use crate::{Entry, Stop};

// Does the byte part words?
#[tactic(auto, unfolding(crate::specs::Log::blank))]
fn blank(b: u8) -> bool
    ensures { result ≡ blank b }
{
    matches!(b, b' ' | b'\t' | b'\r')
}

// Does a stretch of text end before this byte?
fn stops(stop: Stop, b: u8) -> bool
    ensures { result ≡ stops stop b }
{
    match stop {
        Stop::Feed => b == b'\n',
        Stop::Comment => b == b'#',
        Stop::Blank => blank(b),
        Stop::Word => !blank(b),
    }
}

// How many bytes stand before the first that stops.
fn before(stop: Stop, text: &[u8]) -> usize
    ensures { (result ≡ before stop text.now) × (result ≤ length text.now) }
{
    text.iter()
        .position(|&b| stops(stop, b))
        .unwrap_or(text.len())
}

// These bytes.
fn up_to(stop: Stop, text: &[u8]) -> &[u8]
    ensures { result.now ≡ up_to stop text.now }
{
    let n = before(stop, text);
    &text[..n]
}

// The bytes from there on.
fn past(stop: Stop, text: &[u8]) -> &[u8]
    ensures { result.now ≡ past stop text.now }
{
    let n = before(stop, text);
    &text[n..]
}

// The first line of a text, and what follows its line feed.
pub fn split_line(text: &[u8]) -> (&[u8], &[u8])
    ensures line { result.0.now ≡ up_to Feed text.now }
    ensures rest { result.1.now ≡ drop (before Feed text.now + 1) text.now }
{
    let n = before(Stop::Feed, text);
    (&text[..n], &text[(n + 1).min(text.len())..])
}

// Line k of a text, the first being line 0.
pub fn line_of(text: &[u8], k: usize) -> &[u8]
    requires { k < length (lines_of text.now) }
    ensures { (result.now ≡ get_or (lines_of text.now) k []) × (length result.now ≤ length text.now) }
{
    let mut rest = text;
    for _ in 0..k {
        let (_, after) = split_line(rest);
        rest = after;
    }
    let (line, _) = split_line(rest);
    line
}

// From one word to the next.
fn next_word(text: &[u8]) -> &[u8]
    ensures { result.now ≡ next_word text.now }
{
    past(Stop::Word, past(Stop::Blank, text))
}

// A word as a number of 32 bits, digit by digit: std's `parse` would take a sign.
fn number(word: &[u8]) -> Option<usize>
    ensures { result ≡ number_of word.now }
{
    if word.is_empty() {
        return None;
    }
    let mut n = 0;
    for &b in word {
        if !b.is_ascii_digit() {
            return None;
        }
        n = 10 * n + (b - b'0') as usize;
        if n >= 4294967296 {
            return None;
        }
    }
    Some(n)
}

// What a line says.
pub fn entry(line: &[u8]) -> Entry
    ensures { result ≡ entry_of line.now }
{
    let first = past(Stop::Word, up_to(Stop::Comment, line));
    if first.is_empty() {
        return Entry::Nothing;
    }
    let second = next_word(first);
    let rest = next_word(second);
    if !rest.is_empty() {
        return Entry::NoPair;
    }
    let Some(start) = number(up_to(Stop::Blank, first)) else {
        return Entry::NoPair;
    };
    let Some(end) = number(up_to(Stop::Blank, second)) else {
        return Entry::NoPair;
    };
    Entry::Transfer(start, end)
}
