// The lines of the report.
ghost use Rattle.std.specs.Prelude.{◌+◌, ◌≤◌, length};
ghost use Rattle.text.specs.Text.{Said, Added};
ghost use Rattle.report.specs.Report.{first_line, octant_line, refusal_line};
ghost use Rattle.report.specs.Room.{line_room};

use crate::Figures;
use mesh::Sizes;
use text::{Page, say};

// Room for a line.
const LINE_ROOM: usize = 128;

// The first line: sizes and faulty nodes.
#[tactic(auto, using(text::proofs::Adding::added_within))]
pub fn first_line<const N: usize>(page: &mut Page<N>, s: Sizes, faulty: usize)
    requires { length page.old + line_room ≤ N }
    ensures { Added page.old (first_line s faulty) line_room page.new }
{
    page.tell(b"mesh % % % faulty %\n", &[s.w, s.h, s.d, faulty]);
}

// The same, stored in lent bytes.
pub fn first_line_into(s: Sizes, faulty: usize, out: &mut [u8], at: usize) -> usize
    requires { at + line_room ≤ length out.old }
    ensures { Said out.old at (first_line s faulty) out.new result × (result ≤ at + line_room) }
{
    let mut page = Page::<LINE_ROOM>::blank();
    first_line(&mut page, s, faulty);
    say(page.text(), out, at)
}

// A line for an orientation.
#[tactic(auto, using(text::proofs::Adding::added_within))]
pub(crate) fn octant_line<const N: usize>(page: &mut Page<N>, o: usize, f: Figures)
    requires { length page.old + line_room ≤ N }
    ensures { Added page.old (octant_line o f) line_room page.new }
{
    page.tell(
        b"octant % useless % cannot-reach % components %\n",
        &[o, f.useless, f.cannot_reach, f.components],
    );
}

// The only line of a refusal.
#[tactic(auto, using(text::proofs::Adding::added_within))]
pub fn refusal_line<const N: usize>(page: &mut Page<N>, n: usize)
    requires { length page.old + line_room ≤ N }
    ensures { Added page.old (refusal_line n) line_room page.new }
{
    page.tell(b"refused %\n", &[n]);
}

// The same, stored in lent bytes.
pub fn refusal_line_into(n: usize, out: &mut [u8], at: usize) -> usize
    requires { at + line_room ≤ length out.old }
    ensures { Said out.old at (refusal_line n) out.new result × (result ≤ at + line_room) }
{
    let mut page = Page::<LINE_ROOM>::blank();
    refusal_line(&mut page, n);
    say(page.text(), out, at)
}
