// Whether any node is stuck: a quick way out where no node has faulty ones ahead on every axis that counts.
ghost use Rattle.std.specs.Prelude.{◌≡◌, false, cond, ◌+◌, ◌-◌, ◌≤◌, ◌<◌, length};
ghost use Rattle.mesh.specs.Mesh.{Z, InRange, Inside, place, nodes, number};
ghost use Rattle.mesh.specs.declared.Place.{Place};
ghost use Rattle.maps.specs.Shelf.{map_on};
ghost use Rattle.rules.specs.Marks.{counted, stuck};
ghost use Rattle.marks.specs.Stretches.{on_z, inner, Apart};

use maps::faulty_bit;
use maps::shelf::Shelf;
use mesh::{Place, Sizes};

// The coordinate z, 0 or 1, on Z; 0 where Z does not count.
fn on_z(s: Sizes, z: usize) -> usize
    requires { InRange s × (z ≤ 1) }
    ensures { (result ≡ on_z s z) × (result ≤ 1) × (result < s.d) }
{
    if s.d < 2 { 0 } else { z }
}

// How many nodes there are from the first to the last that has a neighbour ahead on every axis that counts.
fn inner(s: Sizes) -> usize
    requires { InRange s }
    ensures { result ≡ inner s }
{
    s.nodes()
        - s.number(Place {
            x: 1,
            y: 1,
            z: on_z(s, 1),
        })
}

// The number of the node at x and y on the other side of z, 0 or 1. Where Z does not count, another node stands in for it.
fn ahead_z(s: Sizes, x: usize, y: usize, z: usize, other: usize) -> usize
    requires { InRange s × (x < s.w) × (y < s.h) × (z ≤ 1) }
    ensures { result ≡ cond (counted s Z) (number s (place x y (1 - z))) other }
{
    if s.d < 2 {
        return other;
    }
    s.number(Place { x, y, z: 1 - z })
}

// Is there a place in three stretches of n cells, at p, q and r, where all three are faulty? No branch and no way out: all are looked at, many at a time.
fn meet(cells: &[u8], n: usize, p: usize, q: usize, r: usize) -> bool
    requires { (p + n ≤ length cells.now) × (q + n ≤ length cells.now) × (r + n ≤ length cells.now) }
    ensures { result ≡ false → Apart cells.now p q r n }
{
    let mut met = 0u8;
    for ((&x, &y), &z) in cells[p..p + n]
        .iter()
        .zip(&cells[q..q + n])
        .zip(&cells[r..r + n])
    {
        met |= faulty_bit(x) & faulty_bit(y) & faulty_bit(z);
    }
    met != 0
}

// Has a node faulty ones ahead on every axis that counts? If not, no node is stuck in orientation o.
pub(crate) fn any_blocked(shelf: &Shelf, o: usize) -> bool
    ensures { result ≡ false → (p : Place) → Inside shelf.now.sizes p → stuck (map_on shelf.now) o p ≡ false }
{
    let s = shelf.sizes;
    let x = o % 2;
    let y = o / 2 % 2;
    let z = on_z(s, o / 4 % 2);
    let p = s.number(Place { x: 1 - x, y, z });
    let q = s.number(Place { x, y: 1 - y, z });
    let r = ahead_z(s, x, y, z, q);
    meet(shelf.cells, inner(s), p, q, r)
}
