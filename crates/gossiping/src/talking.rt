// The rounds of one orientation, from the fresh state until nothing is outstanding.
ghost use Rattle.std.specs.Prelude.{◌≡◌, suc, ◌+◌, ◌≤◌, length, replicate};
ghost use Rattle.maps.specs.Shelf.{map_on};
ghost use Rattle.talk.specs.Sound.{fresh};
ghost use Rattle.talk.specs.Hear.{outstanding};
ghost use Rattle.text.specs.Text.{Added};
ghost use Rattle.rounds.specs.Links.{links, Fit};
ghost use Rattle.rounds.specs.Figures.{marks_held, settled_at};
ghost use Rattle.gossiping.specs.Text.{round_line, round_lines};
ghost use Rattle.report.specs.Room.{line_room};
ghost use Rattle.gossiping.specs.Room.{rounds_room};

use crate::lines::round_line;
use maps::shelf::Shelf;
use mesh::Sizes;
use rounds::chance::SEED;
use rounds::figuring::{marks_held, news};
use rounds::rounds::one_round;
use text::Page;

// The line on the state after r rounds; how much news is outstanding.
fn tell_round<const N: usize>(
    page: &mut Page<N>,
    s: Sizes,
    o: usize,
    r: usize,
    state: &[u8],
) -> usize
    requires { Fit s o state.now × (length page.old + line_room ≤ N) }
    ensures { (result ≡ outstanding s state.now)
        × Added page.old (round_line r (outstanding s state.now) (marks_held s state.now)) line_room page.new }
{
    let news = news(s, o, state);
    round_line(page, r, news, marks_held(s, state));
    news
}

// A line for each round; how many rounds there were.
pub(crate) fn talk<const N: usize>(
    page: &mut Page<N>,
    shelf: &Shelf,
    o: usize,
    state: &mut [u8],
    way: &mut [u8],
) -> usize
    requires { (o ≤ 7) × (state.old ≡ fresh (map_on shelf.now) o)
        × (way.old ≡ replicate (links shelf.now.sizes) 0) × (length page.old + rounds_room ≤ N) }
    ensures { (result ≡ settled_at (map_on shelf.now) o)
        × Added page.old (round_lines (map_on shelf.now) o (suc (settled_at (map_on shelf.now) o))) rounds_room page.new }
{
    let s = shelf.sizes;
    let mut drawn = SEED;
    let mut r = 0;
    while tell_round(page, s, o, r, state) != 0 {
        drawn = one_round(s, o, r, state, way, drawn);
        r += 1;
    }
    r
}
