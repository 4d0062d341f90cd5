// The box from one place to another.
ghost use Rattle.std.specs.Prelude.{◌≡◌, ◌<◌};
ghost use Rattle.mesh.specs.Mesh.{Inside};
ghost use Rattle.rows.specs.Box.{largest, run, between};

use crate::signed::{difference, size};
use mesh::Place;
use rows::{Between, Run};

// One axis, from one coordinate to another.
fn run(from: usize, to: usize) -> Run
    requires { (from < 16) × (to < 16) }
    ensures { result ≡ run from to }
{
    let d = difference(from, to);
    Run {
        from,
        steps: size(d),
        down: d < 0,
    }
}

// The box from u to v.
pub fn between(u: Place, v: Place) -> Between
    requires { Inside largest u × Inside largest v }
    ensures { result ≡ between u v }
{
    Between {
        x: run(u.x, v.x),
        y: run(u.y, v.y),
        z: run(u.z, v.z),
    }
}
