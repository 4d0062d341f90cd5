// The program: of which bytes its text is, no contract says.
ghost use Rattle.std.specs.Prelude.{ℕ, List, OnOk};
ghost use Rattle.std.specs.Io.KnownBytes.{Appends};
ghost use Rattle.report.specs.Report.{report};

use crate::reporting::report;
use std::io::{Read, Result, Write};
use text::running::filter;

// Reads a map file, and prints the report on it.
pub fn run<R: Read, W: Write>(from: &mut R, out: &mut W) -> Result<()>
    ensures { OnOk result ((file : List ℕ) × Appends (W.contents out.old) (W.contents out.new) (report file)) }
{
    filter(from, out, report)
}
