// The totals of an audit.
ghost use Rattle.std.specs.Prelude.{◌≡◌, ◌+◌, ◌≤◌, length};
ghost use Rattle.text.specs.Text.{Added};
ghost use Rattle.audit.specs.Audit.{plus, judge, nothing_yet, totals_text, Few};
ghost use Rattle.audit.specs.Room.{longest_log, totals_room};

use crate::Totals;
use mesh::Refusal;
use paths::Grant;
use text::Page;

impl Totals {
    // Before the first line.
    pub(crate) fn none() -> Totals
        ensures { result ≡ nothing_yet }
    {
        Totals {
            lines: 0,
            granted: 0,
            pathless: 0,
            refused: 0,
            unread: 0,
        }
    }

    // One line more.
    pub(crate) fn line(self) -> Totals
        requires { Few self longest_log }
        ensures { result ≡ plus self 0 0 0 0 }
    {
        Totals {
            lines: self.lines + 1,
            ..self
        }
    }

    // One line more that is no pair of numbers.
    pub(crate) fn no_pair(self) -> Totals
        requires { Few self longest_log }
        ensures { result ≡ plus self 0 0 0 1 }
    {
        let t = self.line();
        Totals {
            unread: t.unread + 1,
            ..t
        }
    }

    // One transfer more.
    pub(crate) fn judge(self, v: Result<Grant, Refusal>) -> Totals
        requires { Few self longest_log }
        ensures { result ≡ judge self v }
    {
        let t = self.line();
        match v {
            Ok(_) => Totals {
                granted: t.granted + 1,
                ..t
            },
            Err(Refusal::NoPath) => Totals {
                pathless: t.pathless + 1,
                ..t
            },
            Err(_) => Totals {
                refused: t.refused + 1,
                ..t
            },
        }
    }
}

// The totals as text.
pub(crate) fn tell_totals<const N: usize>(page: &mut Page<N>, t: Totals)
    requires { length page.old + totals_room ≤ N }
    ensures { Added page.old (totals_text t) totals_room page.new }
{
    page.tell(
        b"totals: lines %, granted %, refused for no path %, refused otherwise %, no pair of numbers %\n",
        &[t.lines, t.granted, t.pathless, t.refused, t.unread],
    );
}
