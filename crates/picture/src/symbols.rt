// The symbols of a picture, one for each node.
ghost use Rattle.std.specs.Prelude.{◌≡◌, ◌≤◌, ◌++◌, length, get_or, drop};
ghost use Rattle.mesh.specs.Mesh.{nodes};
ghost use Rattle.mesh.specs.Cells.{map_of};
ghost use Rattle.mesh.specs.Fill.{Filled};
ghost use Rattle.paths.specs.Entries.{check_ends};
ghost use Rattle.picture.specs.Picture.{symbol_of, symbols};
ghost use Rattle.mesh.specs.Answers.{accepted};

use maps::may_pass;
use mesh::Sizes;
use routes::entries::reached;

// The symbol of node k, which is reached where seen is 1.
fn symbol(start: usize, end: usize, k: usize, seen: u8, cell: u8) -> u8
    ensures { result ≡ symbol_of start end k seen cell }
{
    if k == start {
        return b'S';
    }
    if k == end {
        return b'E';
    }
    if seen == 1 {
        return b'o';
    }
    if may_pass(cell) { b'.' } else { b'#' }
}

// Each byte of "what is reached" gives way to the symbol of its node. By an index: of what a `zip` over `iter_mut` wrote no proof knows.
fn draw_over(cells: &[u8], start: usize, end: usize, drawn: &mut [u8])
    requires { length cells.now ≤ length drawn.old }
    ensures { Filled (λ i. i) (λ i. symbol_of start end i (get_or drawn.old i 0) (get_or cells.now i 0))
        drawn.old drawn.new (length cells.now) }
{
    for (k, &cell) in cells.iter().enumerate() {
        drawn[k] = symbol(start, end, k, drawn[k], cell);
    }
}

// The symbols of all nodes, at the front of the lent bytes.
pub(crate) fn draw(s: Sizes, cells: &[u8], start: usize, end: usize, drawn: &mut [u8])
    requires { (check_ends s cells.now start end ≡ accepted) × (length drawn.old ≡ 4096) }
    ensures { drawn.new ≡ symbols (map_of s cells.now) start end ++ drop (nodes s) drawn.old }
{
    let _ = reached(s, cells, start, end, drawn);
    draw_over(cells, start, end, drawn);
}
