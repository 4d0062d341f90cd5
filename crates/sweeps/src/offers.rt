// The offered set at the start of a route, from a sweep that begins at its end.
ghost use Rattle.std.specs.Prelude.{◌≡◌, not, ◌||◌, ◌+◌, ◌≤◌, ◌<◌, eqb};
ghost use Rattle.std.specs.Int.Signed.{mag};
ghost use Rattle.maps.specs.Shelf.{map_on};
ghost use Rattle.paths.specs.Differences.{wanted};
ghost use Rattle.paths.specs.Offered.{offered};
ghost use Rattle.rows.specs.Box.{far, Held};
ghost use Rattle.sweeps.specs.Sweep.{EndsOn, WaysTo, flag_of};

use crate::Ways;
use crate::bits::{over, seeded};
use crate::boxes::between;
use crate::signed::{difference, way};
use maps::shelf::Shelf;
use mesh::Place;
use rows::Between;
use rows::layer::faulty_layer;

// The ways into the far corner of a box. The loops of `lay_all` and `spread` (trails) are its twins. One loop that takes a closure did not prove: of what a closure
// that was passed on has written nothing is known. A function for a layer that all three call is not inlined, and dk_verdict took 7 to 20 % longer.
fn ways(shelf: &Shelf, g: Between) -> Ways
    requires { Held shelf.now.sizes g }
    ensures { WaysTo (map_on shelf.now) g (far g) result }
{
    let n = g.z.steps + 1;
    let mut rows = seeded();
    let mut faulty = [0u16; 16];
    let mut w = Ways { x: 0, y: 0, z: 0 };
    for c in 0..n {
        faulty_layer(shelf, g, c, &mut faulty);
        w = over(g, c, &faulty, &mut rows);
    }
    w
}

// Does a path lead between two corners, h hops apart, with these ways into the second?
pub fn leads_on(h: usize, w: Ways) -> bool
    requires { (w.x ≤ 1) × (w.y ≤ 1) × (w.z ≤ 1) }
    ensures { result ≡ (eqb h 0 || not (eqb (w.x + w.y + w.z) 0)) }
{
    if h == 0 {
        return true;
    }
    w.x + w.y + w.z != 0
}

// The bit of the direction that a difference prefers, where the way is seen.
fn flag(up: usize, d: i32, seen: u8) -> u8
    requires { (up < 5) × (mag d < 16) × (seen ≤ 1) }
    ensures { (result ≡ flag_of (wanted up d) seen) × (result ≤ 32) }
{
    match way(up, d) {
        Some(j) => seen << j,
        None => 0,
    }
}

// The offered set at p on the way to e.
pub fn offered(shelf: &Shelf, p: Place, e: Place) -> u8
    requires { EndsOn (map_on shelf.now) p e }
    ensures { result ≡ offered (map_on shelf.now) e p }
{
    let w = ways(shelf, between(e, p));
    flag(0, difference(p.x, e.x), w.x)
        + flag(2, difference(p.y, e.y), w.y)
        + flag(4, difference(p.z, e.z), w.z)
}
