// A map that was checked, as one value.
ghost use Rattle.std.specs.Prelude.{◌≡◌, ℕ, false, ◌<◌, length, get_or};
ghost use Rattle.mesh.specs.Mesh.{InRange, nodes};
ghost use Rattle.mesh.specs.Cells.{bad_cell};

use crate::check_map;
use mesh::{Refusal, Sizes};

// The sizes of a mesh, and a cell for each of its nodes.
#[derive(Clone, Copy)]
pub struct Shelf<'a> {
    pub sizes: Sizes,
    pub cells: &'a [u8],
    pub ghost sized: { InRange sizes },
    pub ghost whole: { length cells.now ≡ nodes sizes },
    pub ghost good: { (k : ℕ) → k < length cells.now → bad_cell sizes k (get_or cells.now k 0) ≡ false },
}

impl<'a> Shelf<'a> {
    ghost use Rattle.std.specs.Prelude.{IfOk};
    ghost use Rattle.mesh.specs.Answers.{check_map};
    ghost use Rattle.maps.specs.Shelf.{checked};

    // Refusals 1, 2 and 4.
    #[tactic(auto, using(mesh::proofs::Answers::map_granted))]
    pub fn of(s: Sizes, cells: &'a [u8]) -> Result<Shelf<'a>, Refusal>
        ensures { (checked result ≡ check_map s cells.now) × IfOk result (λ a. (a.sizes ≡ s) × (a.cells.now ≡ cells.now)) }
    {
        check_map(s, cells)?;
        Ok(Shelf { sizes: s, cells })
    }
}
