// The components of a grid, one after another: each gets its number by a flood from its lowest node, and its record from the places flooded.
#![tactic(auto)]

ghost use Rattle.std.specs.Prelude.{◌≡◌, ◌≤◌, min, length, take};
ghost use Rattle.floods.specs.Label.{no_records};

mod flood;
pub mod labelling;
mod recording;

use touching::Component;

// How many components there are, and their records, at the front of room for as many as a mesh can have: there are never more than 1,024, and no heap is used.
#[derive(Clone, Copy)]
pub struct Found {
    pub count: usize,
    pub records: [Component; 1024],
    ghost few: { count ≤ 1024 },
    ghost room: { length records ≡ 1024 },
}

// Room for the records of as many components as a mesh can have, and no record in it.
fn blank_records() -> [Component; 1024]
    ensures { result ≡ no_records }
{
    [Component {
        count: 0,
        x0: 0,
        y0: 0,
        z0: 0,
        x1: 0,
        y1: 0,
        z1: 0,
    }; 1024]
}

impl Found {
    // None yet, and no record in the room.
    pub fn none() -> Found
        ensures { (result.count ≡ 0) × (result.records ≡ no_records) }
    {
        Found {
            count: 0,
            records: blank_records(),
        }
    }

    // None again.
    pub(crate) fn clear(&mut self)
        ensures { (self.new.count ≡ 0) × (self.new.records ≡ no_records) }
    {
        self.count = 0;
        self.records = blank_records();
    }

    // Keeps the first n.
    pub fn truncate(&mut self, n: usize)
        ensures { (self.new.count ≡ min self.old.count n) × (self.new.records ≡ self.old.records) }
    {
        self.count = self.count.min(n);
    }

    // The records.
    pub fn as_slice(&self) -> &[Component]
        ensures { result.now ≡ take self.now.count self.now.records }
    {
        &self.records[..self.count]
    }
}
