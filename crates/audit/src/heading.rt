// What stands above an audit: the mesh, how its nodes are numbered, and how to read a picture.
ghost use Rattle.std.specs.Prelude.{◌+◌, ◌≤◌, length};
ghost use Rattle.text.specs.Text.{Added};
ghost use Rattle.audit.specs.Heading.{heading_text, top_text};
ghost use Rattle.audit.specs.Room.{heading_room, top_room};

use mesh::Sizes;
use text::Page;

#[tactic(auto, unfolding(crate::specs::Heading::heading_form))]
fn heading<const N: usize>(page: &mut Page<N>, s: Sizes)
    requires { length page.old + heading_room ≤ N }
    ensures { Added page.old (heading_text s) heading_room page.new }
{
    page.tell(
        b"mesh % x % x %; the node at (x, y, z) has the number x + % * (y + % * z)

A direct route goes from neighbour to neighbour through nodes that can be used, and each step leads towards the end.
Where there is none, a picture shows the nodes between start and end:

  S  the start                                 #  cannot be used
  o  reached by steps towards the end          .  not reached
  E  the end

It is drawn from the start: each step towards the end goes to the right, down, or to the same place in the next layer.
Why it is a proof: each such step from S or from an o leads to an o or to a #. So whoever steps only towards the end
stays on the nodes marked o, and E is not one of them: no direct route exists.

",
        &[s.w, s.h, s.d, s.w, s.h],
    );
}

// All that stands above the lines of the log, which may be too long.
pub(crate) fn top<const N: usize>(page: &mut Page<N>, s: Sizes, long: bool)
    requires { length page.old + top_room ≤ N }
    ensures { Added page.old (top_text s long) top_room page.new }
{
    heading(page, s);
    if long {
        page.say(b"the log is longer than 65536 bytes: none of it was read\n");
    }
}
