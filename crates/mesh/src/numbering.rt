// Sizes, and the numbers of places.
ghost use Rattle.std.specs.Prelude.{◌≡◌, ◌≤◌, ◌<◌};
ghost use Rattle.mesh.specs.Mesh.{in_range, InRange, nodes, inside, Inside, number, place_of};

use crate::{Place, Sizes};

impl Sizes {
    // W and H are 2 to 16, D is 1 to 16.
    pub fn in_range(self) -> bool
        ensures { result ≡ in_range self }
    {
        let width = (2 <= self.w) & (self.w <= 16);
        let height = (2 <= self.h) & (self.h <= 16);
        let depth = (1 <= self.d) & (self.d <= 16);
        width & height & depth
    }

    // How many nodes there are.
    pub fn nodes(self) -> usize
        requires { InRange self }
        ensures { (result ≡ nodes self) × (result ≤ 4096) }
    {
        self.w * (self.h * self.d)
    }

    // Is the place in the mesh?
    pub fn has(self, p: Place) -> bool
        ensures { result ≡ inside self p }
    {
        (p.x < self.w) & (p.y < self.h) & (p.z < self.d)
    }

    // The number of a place.
    pub fn number(self, p: Place) -> usize
        requires { InRange self × Inside self p }
        ensures { (result ≡ number self p) × (result < nodes self) }
    {
        p.x + self.w * (p.y + self.h * p.z)
    }

    // The place of a node.
    pub fn place(self, k: usize) -> Place
        requires { InRange self }
        ensures { result ≡ place_of self k }
    {
        Place {
            x: k % self.w,
            y: k / self.w % self.h,
            z: k / self.w / self.h,
        }
    }
}
