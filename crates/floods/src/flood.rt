// One component at a time gets its number, by a queue of the places that have it.
ghost use Rattle.std.specs.Prelude.{◌≡◌, ℕ, ◌+◌, ◌<◌, ◌≤◌, length, get_or, set, take, None, IfSome};
ghost use Rattle.grids.specs.Grid.{grid_size, unseen, Spot};
ghost use Rattle.floods.specs.Flood.{how_often, Visited, Spread, Flooded};

use grids::{FIRST, Grid, SIZE, UNSEEN};

// The steps to the eighteen touching places, each with 307 added.
const AROUND: [usize; 18] = [
    1, // -Y -Z
    17, // -X -Z
    18, // -Z
    19, // +X -Z
    35, // +Y -Z
    289, // -X -Y
    290, // -Y
    291, // +X -Y
    306, // -X
    308, // +X
    323, // -X +Y
    324, // +Y
    325, // +X +Y
    579, // -Y +Z
    595, // -X +Z
    596, // +Z
    597, // +X +Z
    613, // +Y +Z
];

// The flood of a component: its number, and the places that have it, in the order in which they were reached. Those before `head` have been spread
// from. The numbers stand before the places, and have their width: so the compiler sees that a place that is stored is none of them.
#[derive(Drop)]
pub(crate) struct Flood {
    pub(crate) number: u16,
    pub(crate) head: u16,
    pub(crate) tail: u16,
    pub(crate) places: [u16; SIZE],
    ghost small: { number < unseen },
    ghost begun: { head ≤ tail },
    ghost few: { tail ≤ grid_size },
    ghost room: { length places ≡ grid_size },
}

impl Flood {
    // Nothing is flooded.
    pub(crate) fn new() -> Flood {
        Flood {
            number: 0,
            head: 0,
            tail: 0,
            places: [0; SIZE],
        }
    }

    // One more place is reached.
    fn push(&mut self, at: usize)
        requires { (self.old.tail < grid_size) × (at < grid_size) }
        ensures { (self.new.number ≡ self.old.number) × (self.new.head ≡ self.old.head) × (self.new.tail ≡ self.old.tail + 1)
            × (self.new.places ≡ set self.old.places self.old.tail at) }
    {
        self.places[self.tail as usize] = at as u16;
        self.tail += 1;
    }

    // The next place to spread from.
    fn next(&mut self) -> Option<usize>
        ensures none { result ≡ None → (self.old.head ≡ self.old.tail) × (self.new.head ≡ self.old.head) }
        ensures some { IfSome result (λ at. (self.old.head < self.old.tail) × (at ≡ get_or self.old.places self.old.head 0)
            × (self.new.head ≡ self.old.head + 1)) }
        ensures kept { (self.new.number ≡ self.old.number) × (self.new.tail ≡ self.old.tail) × (self.new.places ≡ self.old.places) }
    {
        if self.head == self.tail {
            return None;
        }
        let at = self.places[self.head as usize];
        self.head += 1;
        Some(at as usize)
    }

    // Looks at one place.
    fn visit(&mut self, grid: &mut Grid, at: usize)
        requires { (at < grid_size) × (get_or grid.old.cells at 0 ≡ unseen → self.old.tail < grid_size) }
        ensures { (self.new.number ≡ self.old.number) × (self.new.head ≡ self.old.head)
            × Visited grid.old.cells self.old.places self.old.tail at self.old.number grid.new.cells self.new.places self.new.tail }
    {
        if grid.cells[at] == UNSEEN {
            grid.cells[at] = self.number;
            self.push(at);
        }
    }

    // Looks at all places around one.
    fn spread(&mut self, grid: &mut Grid, from: usize)
        requires { Spot from × (how_often grid.old.cells self.old.number ≡ self.old.tail) }
        ensures { (self.new.number ≡ self.old.number) × (self.new.head ≡ self.old.head)
            × Spread grid.old.cells self.old.places self.old.tail from self.old.number 18 grid.new.cells self.new.places self.new.tail }
    {
        let base = from - FIRST;
        for step in AROUND {
            self.visit(grid, base + step);
        }
    }

    // Gives the number to the component of a place.
    pub(crate) fn fill(&mut self, grid: &mut Grid, start: usize, number: u16)
        requires { (number < unseen)
            × (get_or grid.old.cells start 0 ≡ unseen)
            × ((j : ℕ) → get_or grid.old.cells j 0 ≡ unseen → Spot j)
            × ((j : ℕ) → get_or grid.old.cells j 0 ≡ number → ⊥) }
        ensures { Flooded grid.old.cells start number grid.new.cells self.new.places self.new.tail }
    {
        self.number = number;
        self.head = 0;
        self.tail = 0;
        self.visit(grid, start);
        while let Some(from) = self.next() {
            self.spread(grid, from);
        }
    }

    // All places that are reached.
    pub(crate) fn as_slice(&self) -> &[u16]
        ensures { result.now ≡ take self.now.tail self.now.places }
    {
        &self.places[..self.tail as usize]
    }
}
