// The record of a component, from its places.
ghost use Rattle.std.specs.Prelude.{◌≡◌, ℕ, ◌<◌, ◌≤◌, length, get_or};
ghost use Rattle.mesh.specs.Mesh.{Axis, place};
ghost use Rattle.grids.specs.Grid.{grid_size, place_at, Spot};
ghost use Rattle.touching.specs.Components.{least_of, greatest_of};
ghost use Rattle.floods.specs.Label.{alone, widen, Ranged};

use grids::{FIRST, LAYER, ROW};
use touching::Component;

// The coordinates of a node.
#[derive(Clone, Copy)]
struct Coordinates {
    x: u8,
    y: u8,
    z: u8,
}

impl Coordinates {
    // Those of the node at a spot of the grid.
    fn at(spot: usize) -> Coordinates
        requires { Spot spot }
        ensures { place result.x result.y result.z ≡ place_at spot }
    {
        let k = spot - FIRST;
        Coordinates {
            x: (k % ROW) as u8,
            y: (k / ROW % ROW) as u8,
            z: (k / LAYER) as u8,
        }
    }
}

// The record of n nodes that all lie at one place.
fn alone(p: Coordinates, n: usize) -> Component
    requires { n ≤ grid_size }
    ensures { result ≡ alone (place p.x p.y p.z) n }
{
    Component {
        count: n as u16,
        x0: p.x,
        y0: p.y,
        z0: p.z,
        x1: p.x,
        y1: p.y,
        z1: p.z,
    }
}

// A record widened to a place.
fn widened(c: Component, p: Coordinates) -> Component
    ensures { result ≡ widen c (place p.x p.y p.z) }
{
    Component {
        count: c.count,
        x0: c.x0.min(p.x),
        y0: c.y0.min(p.y),
        z0: c.z0.min(p.z),
        x1: c.x1.max(p.x),
        y1: c.y1.max(p.y),
        z1: c.z1.max(p.z),
    }
}

// The record of the component with these places.
pub(crate) fn record_of(places: &[u16]) -> Component
    requires { (1 ≤ length places.now) × (length places.now ≤ grid_size) × ((t : ℕ) → t < length places.now → Spot (get_or places.now t 0)) }
    ensures { (result.count ≡ length places.now)
        × ((a : Axis) → Ranged places.now (length places.now) a (least_of result a) (greatest_of result a)) }
{
    let mut c = alone(Coordinates::at(places[0] as usize), places.len());
    for &at in &places[1..] {
        c = widened(c, Coordinates::at(at as usize));
    }
    c
}
