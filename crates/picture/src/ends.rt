// The ends of a picture, and the directions towards the end.
ghost use Rattle.std.specs.Prelude.{◌+◌, ◌≤◌, length};
ghost use Rattle.text.specs.Text.{Added};
ghost use Rattle.picture.specs.Picture.{way_text, ends_text};
ghost use Rattle.picture.specs.Room.{ends_room};

use mesh::Place;
use rows::{Between, Run};
use text::Page;

// The direction on an axis that leads towards the end, if one does.
fn say_way<const N: usize>(page: &mut Page<N>, r: Run, axis: u8)
    requires { length page.old + 3 ≤ N }
    ensures { Added page.old (way_text r axis) 3 page.new }
{
    if r.steps != 0 {
        let sign = if r.down { b'-' } else { b'+' };
        page.say(&[b' ', sign, axis]);
    }
}

// The line above the layers.
pub(crate) fn say_ends<const N: usize>(page: &mut Page<N>, u: Place, v: Place, g: Between)
    requires { length page.old + ends_room ≤ N }
    ensures { Added page.old (ends_text u v g) ends_room page.new }
{
    page.tell(
        b"  S is at (%, %, %), E at (%, %, %); steps towards the end:",
        &[u.x, u.y, u.z, v.x, v.y, v.z],
    );
    say_way(page, g.x, b'x');
    say_way(page, g.y, b'y');
    say_way(page, g.z, b'z');
    page.say(b"\n");
}
