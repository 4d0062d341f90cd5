// Words over one link: link l leads to node l / 6, from its neighbour in direction l % 6. State, words on the way and number drawn are no struct:
// one that holds a `&mut` has each contract say that its loans stay the same (`ghost_name`).
ghost use Rattle.std.specs.Prelude.{◌≡◌, ℕ, not, ◌&&◌, ◌/◌, ◌%◌, ◌<◌, eqb, length, get_or, set};
ghost use Rattle.mesh.specs.Mesh.{nodes};
ghost use Rattle.talk.specs.State.{map_in, heard, pair};
ghost use Rattle.states.specs.Six.{Ready};
ghost use Rattle.rounds.specs.Links.{links, net, saying, comes, state_by, way_by, visit, Fit, Going};

use crate::chance::{Fate, following};
use field::entry::hear;
use mesh::Sizes;
use states::pairs::{pair, says};

// Does the word differ from what was heard over the link, and may it cross?
fn brings(s: Sizes, state: &[u8], k: usize, j: usize, word: u8) -> bool
    requires { Ready s state.now × (k < nodes s) × (j < 6) }
    ensures { result ≡ pair (map_in s state.now) k j && not (eqb (heard state.now k j) word) }
{
    pair(s, state, k, j) & (state[7 * k + 1 + j] != word)
}

// The word comes over the link.
pub fn come(s: Sizes, o: usize, link: usize, word: u8, state: &mut [u8])
    requires { Fit s o state.old × (link < links s) }
    ensures { state.new ≡ comes s o link word state.old }
{
    let k = link / 6;
    let j = link % 6;
    if !brings(s, state, k, j, word) {
        return;
    }
    let _ = hear(s, o, k, j, word as usize, state);
}

// The word that its speaker holds.
pub fn saying(s: Sizes, state: &[u8], link: usize) -> u8
    requires { Ready s state.now × (link < links s) }
    ensures { result ≡ saying s state.now link }
{
    says(s, state, link / 6, link % 6)
}

// The word that was on the way comes, and the speaker's word is on the way.
fn swap(s: Sizes, o: usize, link: usize, state: &mut [u8], way: &mut [u8])
    requires { Fit s o state.old × (link < links s) × (length way.old ≡ links s) }
    ensures { (state.new ≡ comes s o link (get_or way.old link 0) state.old)
        × (way.new ≡ set way.old link (saying s state.old link)) }
{
    let word = saying(s, state, link);
    let earlier = way[link];
    way[link] = word;
    come(s, o, link, earlier, state);
}

// The word of the link meets its fate.
fn meet(s: Sizes, o: usize, link: usize, fate: Fate, state: &mut [u8], way: &mut [u8])
    requires { Fit s o state.old × (link < links s) × (length way.old ≡ links s) }
    ensures { (drawn : ℕ) → let n = net state.old way.old drawn in (state.new ≡ state_by s o n link fate) × (way.new ≡ way_by s n link fate) }
{
    match fate {
        Fate::Lost => {}
        Fate::Late => swap(s, o, link, state, way),
        Fate::Twice => {
            let word = saying(s, state, link);
            come(s, o, link, word, state);
            come(s, o, link, word, state);
        }
        Fate::Once => {
            let word = saying(s, state, link);
            come(s, o, link, word, state);
        }
    }
}

// A number is drawn, and it chooses the fate of the link's word.
pub fn visit(s: Sizes, o: usize, link: usize, state: &mut [u8], way: &mut [u8], drawn: u32) -> u32
    requires { Going s o (net state.old way.old drawn) × (link < links s) }
    ensures { net state.new way.new result ≡ visit s o (net state.old way.old drawn) link }
{
    let g = following(drawn);
    meet(s, o, link, Fate::of(g), state, way);
    g
}
