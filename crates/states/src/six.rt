// Six bytes in one number, one for each direction, that of direction 0 the lowest: what is asked of each byte is asked of all at once.
ghost use Rattle.std.specs.Prelude.{◌≡◌, not, ℕ, ◌*◌, ◌^◌, ◌<◌, ◌≤◌, eqb, slice_index, bit_and, bit_or, bit_xor};
ghost use Rattle.mesh.specs.Tools.{bit};
ghost use Rattle.mesh.specs.Mesh.{InRange, Z};
ghost use Rattle.rules.specs.Marks.{counted, rule};
ghost use Rattle.talk.specs.State.{heard};
ghost use Rattle.states.specs.Six.{Held, Bytes, six, byte_at, ones, looks, hinders, quick_rule};

use mesh::Sizes;
use std::ops::{BitAnd, BitOr, BitXor};

// A 1 for each direction.
const ONES: u64 = 0x0101_0101_0101;

#[derive(Clone, Copy, Debug, PartialEq, Eq)]
pub struct Six {
    pub bytes: u64,
    ghost small: { bytes < 2 ^ 48 },
}

impl Six {
    // These, in the order of their directions.
    #[tactic(auto, unfolding(crate::specs::Six::packed))]
    pub fn of(bytes: [u8; 6]) -> Six
        ensures { result.bytes ≡ six (slice_index bytes) }
    {
        let [a, b, c, d, e, f] = bytes;
        Six {
            bytes: u64::from_le_bytes([a, b, c, d, e, f, 0, 0]),
        }
    }

    // The same byte for each direction.
    pub fn each(byte: u8) -> Six
        ensures { result.bytes ≡ byte * ones }
    {
        Six {
            bytes: byte as u64 * ONES,
        }
    }

    // What node k has heard.
    pub fn heard(state: &[u8], k: usize) -> Six
        requires { Held state.now k }
        ensures { (result.bytes ≡ six (heard state.now k)) × Bytes (heard state.now k) }
    {
        let at = 7 * k + 1;
        Six::of([
            state[at],
            state[at + 1],
            state[at + 2],
            state[at + 3],
            state[at + 4],
            state[at + 5],
        ])
    }

    // A 1 for each direction that is ahead on a counted axis.
    fn ahead(s: Sizes, o: usize) -> Six
        ensures { (result.bytes ≡ six (λ j. bit (looks s o j))) × (result.bytes ≤ ones) }
    {
        let x = (o % 2) as u8;
        let y = (o / 2 % 2) as u8;
        let z = (o / 4 % 2) as u8;
        Six::of([1 - x, x, 1 - y, y, (1 - z) & deep(s), z & deep(s)])
    }

    // 1 if each byte heard from ahead blocks for the mark that is worth `part`, else 0. A byte that blocks is 1 or more and reaches 8 by 7; one that
    // is not looked at is made 8.
    fn stuck(self, s: Sizes, o: usize, part: u64) -> u8
        requires { InRange s × (part ≤ 4) }
        ensures { ((h : ℕ → ℕ) → Bytes h → self.bytes ≡ six h → result ≡ bit (rule s o λ j. hinders part (h j))) × (result ≤ 1) }
    {
        let here = Six::ahead(s, o).bytes;
        let eights = 8 * ONES;
        let blocked = (self.bytes & (part + 1) * here) + (eights - here);
        (blocked & eights == eights) as u8
    }

    // The own byte that the mark rule gives a node that has heard this.
    pub fn ruled(self, s: Sizes, o: usize) -> u8
        requires { InRange s × (o ≤ 7) }
        ensures { result ≡ quick_rule s o (byte_at self.bytes) }
    {
        2 * self.stuck(s, o, 2) + 4 * self.stuck(s, 7 - o, 4)
    }

    // A 1 for each byte that is not 0.
    pub fn some(self) -> Six
        ensures { (result.bytes ≡ six (λ j. bit (not (eqb (byte_at self.bytes j) 0)))) × (result.bytes ≤ ones) }
    {
        let most = 127 * ONES;
        let tops = ((self.bytes & most) + most | self.bytes) & 128 * ONES;
        Six { bytes: tops / 128 }
    }
}

impl BitAnd for Six {
    type Output = Six;

    ghost bitand_gives = { λ a b r. r.bytes ≡ bit_and a.bytes b.bytes };

    fn bitand(self, rhs: Six) -> Six {
        Six {
            bytes: self.bytes & rhs.bytes,
        }
    }
}

impl BitOr for Six {
    type Output = Six;

    ghost bitor_gives = { λ a b r. r.bytes ≡ bit_or a.bytes b.bytes };

    #[tactic(auto, using(crate::proofs::Beside::or_small))]
    fn bitor(self, rhs: Six) -> Six {
        Six {
            bytes: self.bytes | rhs.bytes,
        }
    }
}

impl BitXor for Six {
    type Output = Six;

    ghost bitxor_gives = { λ a b r. r.bytes ≡ bit_xor a.bytes b.bytes };

    #[tactic(auto, using(crate::proofs::Beside::xor_small))]
    fn bitxor(self, rhs: Six) -> Six {
        Six {
            bytes: self.bytes ^ rhs.bytes,
        }
    }
}

// 1 if the Z axis counts, else 0.
fn deep(s: Sizes) -> u8
    ensures { (result ≡ bit (counted s Z)) × (result ≤ 1) }
{
    (2 <= s.d) as u8
}
