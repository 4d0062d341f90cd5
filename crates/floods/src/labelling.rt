// All components, one after another by their lowest node.
ghost use Rattle.std.specs.Prelude.{◌≡◌, ◌<◌, ◌≤◌, length};
ghost use Rattle.grids.specs.Grid.{grid_size};
ghost use Rattle.floods.specs.Label.{Untouched, Within, Labelled};

use crate::Found;
use crate::flood::Flood;
use crate::recording::record_of;
use grids::{FIRST, Grid, LAYER, ROW, UNSEEN};

// Numbers the components of a grid whose unsafe places lie in the first h rows of the first d layers, and finds their records.
pub fn label(grid: &mut Grid, h: usize, d: usize, found: &mut Found)
    requires { Untouched grid.old.cells × Within h d grid.old.cells × (d ≤ 16) × (0 < d → h ≤ 16) }
    ensures { Labelled grid.old.cells grid_size found.new.count grid.new.cells found.new.records }
{
    let mut flood = Flood::new();
    found.clear();
    // What is found is only written until the end, so that a caller who asks for no records has none made.
    let mut n = 0;
    for z in 0..d {
        let from = FIRST + LAYER * z;
        for at in from..from + ROW * h {
            if grid.cells[at] != UNSEEN {
                continue;
            }
            flood.fill(grid, at, (n + 1) as u16);
            found.records[n] = record_of(flood.as_slice());
            n += 1;
        }
    }
    found.count = n;
}

// The same of a grid that lies in lent places.
pub fn label_in(places: &mut [u16], h: usize, d: usize, found: &mut Found)
    requires { (length places.old ≡ grid_size) × Untouched places.old × Within h d places.old × (d ≤ 16) × (0 < d → h ≤ 16) }
    ensures { Labelled places.old grid_size found.new.count places.new found.new.records }
{
    let mut grid = Grid::blank();
    grid.cells.copy_from_slice(places);
    label(&mut grid, h, d, found);
    places.copy_from_slice(&grid.cells);
}
