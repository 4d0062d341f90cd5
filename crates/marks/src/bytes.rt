// The bytes of all nodes, after the sweeps.
ghost use Rattle.std.specs.Prelude.{◌≡◌, ◌≤◌, length};
ghost use Rattle.marks.specs.Sweep.{mark_of, Finished};

use maps::faulty_cell;

// The mark byte of a node, from what the sweeps left there. Both arms are cheap: compiled, it is a selection and no branch.
fn mark_byte(cell: u8, marks: u8) -> u8
    ensures { result ≡ mark_of cell marks }
{
    if faulty_cell(cell) { 1 } else { marks }
}

// The byte of each faulty node becomes 1. By an index: of what a `zip` over `iter_mut` wrote no proof knows.
pub(crate) fn finish(cells: &[u8], out: &mut [u8])
    requires { length cells.now ≤ length out.old }
    ensures { Finished cells.now out.old out.new (length cells.now) }
{
    for (i, &cell) in cells.iter().enumerate() {
        out[i] = mark_byte(cell, out[i]);
    }
}
