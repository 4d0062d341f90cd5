// The lines that are printed.
ghost use Rattle.std.specs.Prelude.{◌+◌, ◌≤◌, length};
ghost use Rattle.text.specs.Text.{Added};
ghost use Rattle.gossiping.specs.Text.{legend, round_line, start_line, settled_line};
ghost use Rattle.report.specs.Room.{line_room};

use rounds::rounds::LOSSY_ROUNDS;
use text::Page;

// Which rounds have loss.
#[tactic(auto, using(text::proofs::Adding::added_within))]
pub(crate) fn legend<const N: usize>(page: &mut Page<N>)
    requires { length page.old + line_room ≤ N }
    ensures { Added page.old legend line_room page.new }
{
    page.tell(
        b"rounds 1 to % lose, repeat, delay and reorder words\n",
        &[LOSSY_ROUNDS],
    );
}

// What is told of a round.
pub(crate) fn round_line<const N: usize>(page: &mut Page<N>, r: usize, news: usize, marks: usize)
    requires { length page.old + line_room ≤ N }
    ensures { Added page.old (round_line r news marks) line_room page.new }
{
    if r > LOSSY_ROUNDS {
        page.tell(b"full round % outstanding % marks %\n", &[r, news, marks]);
    } else {
        page.tell(b"round % outstanding % marks %\n", &[r, news, marks]);
    }
}

// The first line of an orientation.
#[tactic(auto, using(text::proofs::Adding::added_within))]
pub(crate) fn start_line<const N: usize>(page: &mut Page<N>, o: usize, working: usize)
    requires { length page.old + line_room ≤ N }
    ensures { Added page.old (start_line o working) line_room page.new }
{
    page.tell(b"octant % working %\n", &[o, working]);
}

// Its last line.
#[tactic(auto, using(text::proofs::Adding::added_within))]
pub(crate) fn settled_line<const N: usize>(page: &mut Page<N>, r: usize, most: usize)
    requires { length page.old + line_room ≤ N }
    ensures { Added page.old (settled_line r most) line_room page.new }
{
    page.tell(
        b"settled after round %; % full rounds always settle\n",
        &[r, most],
    );
}
