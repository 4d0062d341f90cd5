// Rounds of words: first some with loss, then full ones.
ghost use Rattle.std.specs.Prelude.{◌≡◌, ◌<◌, ◌≤◌, get_or};
ghost use Rattle.mesh.specs.Mesh.{InRange};
ghost use Rattle.rounds.specs.Chance.{chosen};
ghost use Rattle.rounds.specs.Links.{links, most_links, net, Fit, Going};
ghost use Rattle.rounds.specs.Rounds.{strides, lossy_round, full_round, one_round};

use crate::chance::{chosen, following};
use crate::links::{come, saying, visit};
use mesh::Sizes;

// Primes, and more than there are links.
const STRIDES: [usize; 4] = [24593, 24611, 24623, 24631];

// How many rounds have loss.
pub const LOSSY_ROUNDS: usize = 8;

// How many links the largest mesh has.
pub const MOST_LINKS: usize = 24576;

// How many links there are.
pub fn links(s: Sizes) -> usize
    requires { InRange s }
    ensures { (result ≡ links s) × (0 < result) × (result ≤ most_links) }
{
    6 * s.nodes()
}

// A stride by the number drawn.
fn stride(g: u32) -> usize
    ensures { (result ≡ get_or strides (chosen 4 g) 0) × (result ≤ 24631) }
{
    STRIDES[chosen(4, g as usize)]
}

// A round with loss: a visit to each link, in an order that two numbers choose.
fn lossy_round(s: Sizes, o: usize, state: &mut [u8], way: &mut [u8], drawn: u32) -> u32
    requires { Going s o (net state.old way.old drawn) }
    ensures { net state.new way.new result ≡ lossy_round s o (net state.old way.old drawn) }
{
    let g = following(drawn);
    let mut last = following(g);
    let n = links(s);
    let first = chosen(n, g as usize);
    let step = stride(last);
    for i in 0..n {
        last = visit(s, o, (first + step * i) % n, state, way, last);
    }
    last
}

// A full round: over each link in turn comes what its speaker holds then.
fn full_round(s: Sizes, o: usize, state: &mut [u8])
    requires { Fit s o state.old }
    ensures { state.new ≡ full_round s o state.old }
{
    for link in 0..links(s) {
        let word = saying(s, state, link);
        come(s, o, link, word, state);
    }
}

// The round after r rounds.
#[tactic(auto, unfolding(crate::specs::Rounds::one_round))]
pub fn one_round(s: Sizes, o: usize, r: usize, state: &mut [u8], way: &mut [u8], drawn: u32) -> u32
    requires { Going s o (net state.old way.old drawn) }
    ensures { net state.new way.new result ≡ one_round s o r (net state.old way.old drawn) }
{
    if r < LOSSY_ROUNDS {
        return lossy_round(s, o, state, way, drawn);
    }
    full_round(s, o, state);
    drawn
}
