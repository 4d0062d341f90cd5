// How to call the program.
ghost use Rattle.std.specs.Prelude.{◌≡◌, ◌+◌, ◌≤◌, length};
ghost use Rattle.text.specs.Text.{Said, Added};
ghost use Rattle.audit.specs.Usage.{usage_text};
ghost use Rattle.audit.specs.Room.{usage_room};

use text::{Page, say};

// The words.
#[tactic(auto, unfolding(crate::specs::Usage::usage_text))]
fn words() -> &'static [u8]
    ensures { (result.now ≡ usage_text) × (length result.now ≤ usage_room) }
{
    b"usage: meshaudit MAP LOG [MAP LOG ..]

MAP is a map file. LOG is text: the numbers of a start and an end to a line, blank lines skipped, and what follows
a # too; at most 65536 bytes. For each transfer one line says that it is granted, with its hops and its route, or
refused, with the reason; a picture shows that there is no path where that is the reason. Totals come last.
"
}

// Written on a page.
pub fn usage<const N: usize>(page: &mut Page<N>)
    requires { length page.old + usage_room ≤ N }
    ensures { Added page.old usage_text usage_room page.new }
{
    page.say(words());
}

// Stored in lent bytes.
pub fn usage_into(out: &mut [u8]) -> usize
    requires { usage_room ≤ length out.old }
    ensures { Said out.old 0 usage_text out.new result × (result ≤ usage_room) }
{
    say(words(), out, 0)
}
