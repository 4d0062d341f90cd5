// The one scan of a state: is it sound, and how many words are outstanding? The nodes in their order, row by row, each with six bytes at once, so
// that a node leads to two branches alone, by whether it is faulty and by whether all is right.
#![tactic(auto)]

ghost use Rattle.std.specs.Prelude.{◌≡◌, false, ◌*◌, ◌<◌, ◌≤◌, MatchOption};
ghost use Rattle.std.specs.Bool.{then_some};
ghost use Rattle.mesh.specs.Mesh.{Inside, number};
ghost use Rattle.mesh.specs.Answers.{answered, unless};
ghost use Rattle.mesh.specs.declared.Refusal.TheVariants.{Unsound};
ghost use Rattle.talk.specs.Sound.{sound};
ghost use Rattle.talk.specs.Hear.{outstanding};
ghost use Rattle.states.specs.Six.{Ready};
ghost use Rattle.scans.specs.Scan.{node_test, row_test, row_news, Right};

use mesh::{Place, Refusal, Sizes};
use states::bytes::faulty_hears;
use states::sides::around;
use states::six::Six;

// The node at p: nothing if a byte of it is wrong, else a 1 for each direction from which a word is outstanding.
fn node(s: Sizes, o: usize, state: &[u8], p: Place) -> Option<Six>
    requires { Ready s state.now × (o ≤ 7) × Inside s p }
    ensures { MatchOption result (node_test s o state.now (number s p) ≡ false) λ news. Right s o state.now (number s p) news.bytes }
{
    let k = s.number(p);
    let own = state[7 * k];
    let told = Six::heard(state, k);
    let said = around(s, state, 7, p, k);
    let failed = told == Six::each(faulty_hears());
    let works = (own == told.ruled(s, o)) & (told | said & Six::each(6) == said);
    let news = (said ^ told).some();
    if own == 1 {
        failed.then_some(Six::each(0))
    } else {
        works.then_some(news)
    }
}

// A row of nodes. The words outstanding are few enough to be counted by a remainder: each byte of six counts alike by 255.
fn row(s: Sizes, o: usize, state: &[u8], row: usize) -> Option<u64>
    requires { Ready s state.now × (o ≤ 7) × (row < s.h * s.d) }
    ensures { result ≡ then_some (row_test s o state.now row) (row_news s state.now row) }
{
    let y = row % s.h;
    let z = row / s.h;
    let mut news = 0;
    for x in 0..s.w {
        news += node(s, o, state, Place { x, y, z })?.bytes;
    }
    Some(news % 255)
}

// All nodes: refusal 6, or how many words are outstanding.
pub fn scan(s: Sizes, o: usize, state: &[u8]) -> Result<usize, Refusal>
    requires { Ready s state.now × (o ≤ 7) }
    ensures { result ≡ answered (unless (sound s o state.now) Unsound) (outstanding s state.now) }
{
    let rows = s.h * s.d;
    let mut news = 0;
    for at in 0..rows {
        let Some(found) = row(s, o, state, at) else {
            return Err(Refusal::Unsound);
        };
        news += found as usize;
    }
    Ok(news)
}

// Is the state sound?
pub fn all_right(s: Sizes, o: usize, state: &[u8]) -> bool
    requires { Ready s state.now × (o ≤ 7) }
    ensures { result ≡ sound s o state.now }
{
    scan(s, o, state).is_ok()
}
