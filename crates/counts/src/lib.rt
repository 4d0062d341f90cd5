// How many nodes are faulty, and how many hold a mark, counted by their bytes.
#![tactic(auto)]

ghost use Rattle.std.specs.Prelude.{◌≡◌, ◌<◌};
ghost use Rattle.counts.specs.Counts.{faulty_among, with_bit};

use maps::faulty_bit;

// How many cells are of faulty nodes. A sum of bits, so that the compiler counts many at once: of `filter` and `count` it makes a branch for each byte.
pub fn count_faulty(cells: &[u8]) -> usize
    ensures { result ≡ faulty_among cells.now }
{
    let mut n = 0;
    for &cell in cells {
        n += faulty_bit(cell) as usize;
    }
    n
}

// How many mark bytes have a mark: 2 for useless, 4 for can't-reach.
pub fn count_marked(marks: &[u8], mark: u8) -> usize
    requires { 0 < mark }
    ensures { result ≡ with_bit marks.now mark }
{
    let mut n = 0;
    for &byte in marks {
        n += (byte / mark % 2) as usize;
    }
    n
}
