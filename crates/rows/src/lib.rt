// A row of nodes as one number: bit k is that of the node k steps on.
#![tactic(auto)]

pub mod boxes;
mod bytes;
pub mod layer;
pub mod pack;
pub mod unpack;

ghost use Rattle.std.specs.Prelude.{◌≡◌, true, false, ℕ, ◌+◌, ◌^◌, ◌≤◌, ◌<◌};
ghost use Rattle.rows.specs.Row.{bit_at, swept, onwards};
ghost use Rattle.rows.specs.Bytes.{turned};

// One axis of a box of nodes, or a row of their numbers: so many steps on from the first, down or up.
#[derive(Clone, Copy, Debug, PartialEq, Eq, Hash)]
pub struct Run {
    pub from: usize,
    pub steps: usize,
    pub down: bool,
}

// The nodes between two places, from the first towards the second.
#[derive(Clone, Copy, Debug, PartialEq, Eq, Hash)]
pub struct Between {
    pub x: Run,
    pub y: Run,
    pub z: Run,
}

// The sweep of a row: the carries of one addition. No bit is set where none of `pass` is, so a link to such a node says nothing: where all links are live,
// `pass` itself may be given for them.
pub fn sweep_row(pass: u16, from: u16, link: u16) -> u16
    ensures { (k : ℕ) → bit_at result k ≡ swept (bit_at pass) (bit_at from) (bit_at link) k }
{
    let a = (pass & from) as u32;
    let p = (pass & (from | link)) as u32;
    (((a + p) ^ a ^ p) >> 1) as u16
}

// w bits, all set.
pub fn full(w: usize) -> u16
    requires { w ≤ 16 }
    ensures { result + 1 ≡ 2 ^ w }
{
    ((1u32 << w) - 1) as u16
}

// The node k steps on.
pub(crate) fn onwards(from: usize, k: usize, down: bool) -> usize
    requires { (down ≡ true → k ≤ from) × (down ≡ false → from + k < 2 ^ 64) }
    ensures { result ≡ onwards down from k }
{
    if down { from - k } else { from + k }
}

// Of eight nodes, from the one k steps on, the first in the order of their numbers.
pub(crate) fn lowest(from: usize, k: usize, down: bool) -> usize
    requires { (down ≡ true → k + 7 ≤ from) × (down ≡ false → from + k < 2 ^ 64) }
    ensures { result ≡ onwards down from (k + turned down 0) }
{
    if down { from - (k + 7) } else { from + k }
}
