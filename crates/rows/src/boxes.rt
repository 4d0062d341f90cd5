// The nodes of a box, in steps from its first corner: all eight ways to run are one case.
ghost use Rattle.std.specs.Prelude.{◌≡◌, ◌≤◌, ◌<◌};
ghost use Rattle.mesh.specs.Mesh.{InRange, place, nodes, number};
ghost use Rattle.rows.specs.Box.{gone, reach, far, row_run, OnAxis, Held, Within};

use crate::{Between, Run, onwards};
use mesh::{Place, Sizes};

impl Run {
    // The coordinate, or the node of a row, after i steps.
    pub fn at(self, i: usize) -> usize
        requires { OnAxis self 4096 × (i ≤ self.steps) }
        ensures { result ≡ gone self i }
    {
        onwards(self.from, i, self.down)
    }
}

impl Between {
    // The opposite corner, in steps.
    pub fn far(self) -> Place
        ensures { result ≡ far self }
    {
        Place {
            x: self.x.steps,
            y: self.y.steps,
            z: self.z.steps,
        }
    }

    // The nodes of the row after b and c steps.
    pub fn row(self, s: Sizes, b: usize, c: usize) -> Run
        requires { InRange s × Held s self × Within self (place 0 b c) }
        ensures { result ≡ row_run s self b c }
    {
        Run {
            from: self.node(s, 0, b, c),
            ..self.x
        }
    }

    // The number of the node after a, b and c steps.
    pub fn node(self, s: Sizes, a: usize, b: usize, c: usize) -> usize
        requires { InRange s × Held s self × Within self (place a b c) }
        ensures { (result ≡ number s (reach self (place a b c))) × (result < nodes s) }
    {
        s.number(Place {
            x: self.x.at(a),
            y: self.y.at(b),
            z: self.z.at(c),
        })
    }
}
