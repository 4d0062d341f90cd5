// The figures of a shelf.
ghost use Rattle.std.specs.Prelude.{◌≡◌, ◌≤◌, length};
ghost use Rattle.maps.specs.Shelf.{map_on};
ghost use Rattle.rules.specs.Marks.{marks_of};
ghost use Rattle.touching.specs.Components.{how_many};
ghost use Rattle.report.specs.Report.{figures_of};

use crate::Figures;
use components::Found;
use components::entry::compute;
use counts::count_marked;
use maps::shelf::Shelf;
use marks::entry::marks;

// Room for the table of components.
fn blank_table() -> [u16; 4096]
    ensures { length result ≡ 4096 }
{
    [0; 4096]
}

// How many components there are.
fn count_components(shelf: &Shelf, o: usize) -> usize
    requires { o ≤ 7 }
    ensures { result ≡ how_many shelf.now.sizes (marks_of (map_on shelf.now) o) }
{
    let mut table = blank_table();
    let mut found = Found::none();
    let _ = compute(shelf.sizes, shelf.cells, o, &mut table, 4096, &mut found);
    found.count
}

// The figures of an orientation.
pub(crate) fn figures(shelf: &Shelf, o: usize) -> Figures
    requires { o ≤ 7 }
    ensures { result ≡ figures_of (map_on shelf.now) o }
{
    let mut marked = [0u8; 4096];
    let _ = marks(shelf.sizes, shelf.cells, o, &mut marked);
    let n = shelf.sizes.nodes();
    let useless = count_marked(&marked[..n], 2);
    let cannot_reach = count_marked(&marked[..n], 4);
    let components = count_components(shelf, o);
    Figures {
        useless,
        cannot_reach,
        components,
    }
}
