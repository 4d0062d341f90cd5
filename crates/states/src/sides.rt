// What stands around a node: a byte of each neighbour, 8 where there is none. Read from a state, or from the cells of a map.
ghost use Rattle.std.specs.Prelude.{◌≡◌, cond, ◌*◌, ◌≤◌, length, IsTrue};
ghost use Rattle.mesh.specs.Mesh.{InRange, Inside, nodes, number};
ghost use Rattle.states.specs.Six.{Bytes, six, Laid, first_byte, around};

use crate::six::Six;
use mesh::{Place, Sizes};

// The first of `per` bytes that node q has, where there is such a node.
fn side(bytes: &[u8], per: usize, there: bool, q: usize) -> u8
    requires { IsTrue there → Laid bytes.now per q }
    ensures { result ≡ cond there (first_byte bytes.now per q) 8 }
{
    if there { bytes[per * q] } else { 8 }
}

// Of all neighbours of the node at p, whose number is k.
pub fn around(s: Sizes, bytes: &[u8], per: usize, p: Place, k: usize) -> Six
    requires { InRange s × (1 ≤ per) × (length bytes.now ≡ per * nodes s) × Inside s p × (k ≡ number s p) }
    ensures { (result.bytes ≡ six (around s (first_byte bytes.now per) k)) × Bytes (around s (first_byte bytes.now per) k) }
{
    let layer = s.w * s.h;
    Six::of([
        side(bytes, per, p.x + 1 < s.w, k + 1),
        side(bytes, per, 0 < p.x, k.wrapping_sub(1)),
        side(bytes, per, p.y + 1 < s.h, k + s.w),
        side(bytes, per, 0 < p.y, k.wrapping_sub(s.w)),
        side(bytes, per, p.z + 1 < s.d, k + layer),
        side(bytes, per, 0 < p.z, k.wrapping_sub(layer)),
    ])
}
