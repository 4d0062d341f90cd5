// The audit of a log, line by line.
ghost use Rattle.std.specs.Prelude.{◌≡◌, ◌+◌, ◌≤◌, length};
ghost use Rattle.text.specs.Text.{Added};
ghost use Rattle.audit.specs.Audit.{line_text, line_totals, totals_of, Few};
ghost use Rattle.transfers.specs.Room.{transfer_room};
ghost use Rattle.audit.specs.Room.{longest_log};

use crate::Totals;
use logfile::Entry;
use logfile::reading::{entry, split_line};
use mesh::Sizes;
use routes::entries::verdict;
use std::io::{Result, Write};
use text::Page;
use transfers::transfer;

// The text for a line, after others with these totals; the totals with it.
fn audit_line<const N: usize>(
    page: &mut Page<N>,
    s: Sizes,
    cells: &[u8],
    t: Totals,
    line: &[u8],
) -> Totals
    requires { Few t longest_log × (length page.old + transfer_room ≤ N) }
    ensures { (result ≡ line_totals s cells.now t line.now)
        × Added page.old (line_text s cells.now t line.now) transfer_room page.new }
{
    let k = t.lines + 1;
    match entry(line) {
        Entry::Nothing => t.line(),
        Entry::Transfer(start, end) => {
            let v = verdict(s, cells, start, end);
            transfer(page, s, cells, k, start, end, v);
            t.judge(v)
        }
        Entry::NoPair => {
            page.tell(b"line %: no pair of numbers\n", &[k]);
            t.no_pair()
        }
    }
}

// Prints a page, unless a write failed before.
fn print_on<W: Write, const N: usize>(
    printed: Result<()>,
    to: &mut W,
    page: &Page<N>,
) -> Result<()> {
    printed?;
    page.print(to)
}

// Prints the text for each line, by a page that is lent, until a write fails; the totals of all lines, and whether one failed.
pub(crate) fn audit_log<W: Write>(
    s: Sizes,
    cells: &[u8],
    log: &[u8],
    page: &mut Page<65536>,
    to: &mut W,
) -> (Totals, Result<()>)
    requires { length log.now ≤ longest_log }
    ensures { result.0 ≡ totals_of s cells.now log.now }
{
    let mut t = Totals::none();
    let mut printed = Ok(());
    let mut rest = log;
    while !rest.is_empty() {
        let (line, after) = split_line(rest);
        page.clear();
        t = audit_line(page, s, cells, t, line);
        printed = print_on(printed, to, page);
        rest = after;
    }
    (t, printed)
}
