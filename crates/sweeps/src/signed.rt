// Signed differences of coordinates: their sign chooses the preferred direction, their sizes sum to the hops.
ghost use Rattle.std.specs.Prelude.{◌≡◌, ◌≤◌, ◌<◌, nat_abs};
ghost use Rattle.std.proofs.Math.IntN.{sub_ℕ};
ghost use Rattle.std.specs.Int.Signed.{mag};
ghost use Rattle.mesh.specs.Mesh.{Inside};
ghost use Rattle.paths.specs.Differences.{wanted, hops};
ghost use Rattle.rows.specs.Box.{largest};

use mesh::Place;

// The coordinate `to` less the coordinate `from`.
pub(crate) fn difference(from: usize, to: usize) -> i32
    requires { (from < 16) × (to < 16) }
    ensures { (result ≡ sub_ℕ to from) × (mag result < 16) }
{
    to as i32 - from as i32
}

// A difference without its sign.
pub(crate) fn size(d: i32) -> usize
    requires { mag d < 16 }
    ensures { (result ≡ nat_abs d) × (result ≤ 16) }
{
    d.unsigned_abs() as usize
}

// The direction that lowers a difference: `up` or the one after it, or none.
pub(crate) fn way(up: usize, d: i32) -> Option<usize>
    requires { (up < 5) × (mag d < 16) }
    ensures { result ≡ wanted up d }
{
    if d > 0 {
        return Some(up);
    }
    if d < 0 {
        return Some(up + 1);
    }
    None
}

// The sum of the sizes.
pub fn hops(p: Place, e: Place) -> usize
    requires { Inside largest p × Inside largest e }
    ensures { (result ≡ hops p e) × (result ≤ 45) }
{
    size(difference(p.x, e.x)) + size(difference(p.y, e.y)) + size(difference(p.z, e.z))
}
