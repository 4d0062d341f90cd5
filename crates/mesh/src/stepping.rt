// The six unit steps, and a step from a place.
ghost use Rattle.std.specs.Prelude.{◌≡◌, ◌<◌};
ghost use Rattle.mesh.specs.Mesh.{InRange, Inside};
ghost use Rattle.mesh.specs.Steps.{step_of, moved, together, next};

use crate::{Place, Sizes};

// +X, -X, +Y, -Y, +Z, -Z. A direction is its number, as in C and in the definition `next`; so are an orientation, a mark and a word (`marks_of`, `rule`, `hear_answer`).
pub const STEPS: [[i32; 3]; 6] = [
    [1, 0, 0],
    [-1, 0, 0],
    [0, 1, 0],
    [0, -1, 0],
    [0, 0, 1],
    [0, 0, -1],
];

// The coordinate c, moved along an axis of n by a direction's step, or off the axis.
fn shift(c: usize, direction: usize, axis: usize, n: usize) -> Option<usize>
    requires { (c < 16) × (direction < 6) × (axis < 3) }
    ensures { result ≡ moved c (step_of direction axis) n }
{
    let t = c as i32 + STEPS[direction][axis];
    if t < 0 {
        return None;
    }
    let u = t as usize;
    if u < n { Some(u) } else { None }
}

// The three axes together.
fn together(x: Option<usize>, y: Option<usize>, z: Option<usize>) -> Option<Place>
    ensures { result ≡ together x y z }
{
    Some(Place {
        x: x?,
        y: y?,
        z: z?,
    })
}

impl Place {
    // The next place in a direction, or the edge: one coordinate moves. A direction that is a constant leaves the compiler no table to build.
    pub fn step(self, direction: usize, s: Sizes) -> Option<Place>
        requires { (direction < 6) × InRange s × Inside s self }
        ensures { result ≡ next s self direction }
    {
        let x = Some(self.x);
        let y = Some(self.y);
        let z = Some(self.z);
        match direction {
            0 => together(shift(self.x, 0, 0, s.w), y, z),
            1 => together(shift(self.x, 1, 0, s.w), y, z),
            2 => together(x, shift(self.y, 2, 1, s.h), z),
            3 => together(x, shift(self.y, 3, 1, s.h), z),
            4 => together(x, y, shift(self.z, 4, 2, s.d)),
            _ => together(x, y, shift(self.z, 5, 2, s.d)),
        }
    }
}
