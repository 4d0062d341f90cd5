// The report on a file, as text.
ghost use Rattle.std.specs.Prelude.{◌≡◌, ◌+◌, ◌≤◌, length};
ghost use Rattle.maps.specs.Shelf.{map_on};
ghost use Rattle.text.specs.Text.{Added};
ghost use Rattle.report.specs.Report.{orientations, octant_lines, map_report, report};
ghost use Rattle.report.specs.Room.{octant_lines_room, report_room};

use crate::figuring::figures;
use crate::lines::{first_line, octant_line, refusal_line};
use counts::count_faulty;
use mapfile::reader::read_map;
use maps::shelf::Shelf;
use mesh::Sizes;
use text::Page;

// How many orientations have a line.
#[tactic(auto, unfolding(crate::specs::Report::orientations))]
pub fn orientations(s: Sizes) -> usize
    ensures { (result ≡ orientations s) × (result ≤ 8) }
{
    if s.d == 1 { 4 } else { 8 }
}

// The lines of all orientations.
fn octant_lines<const N: usize>(page: &mut Page<N>, shelf: &Shelf)
    requires { length page.old + octant_lines_room ≤ N }
    ensures { Added page.old (octant_lines (map_on shelf.now) (orientations shelf.now.sizes)) octant_lines_room page.new }
{
    for o in 0..orientations(shelf.sizes) {
        octant_line(page, o, figures(shelf, o));
    }
}

// The report on a shelf.
fn map_report<const N: usize>(page: &mut Page<N>, shelf: &Shelf)
    requires { length page.old + report_room ≤ N }
    ensures { Added page.old (map_report (map_on shelf.now)) report_room page.new }
{
    first_line(page, shelf.sizes, count_faulty(shelf.cells));
    octant_lines(page, shelf);
}

// The report on a file.
pub(crate) fn report(file: &[u8], page: &mut Page<65536>)
    ensures { (page.new ≡ report file.now) × (length page.new ≤ report_room) }
{
    page.clear();
    let mut cells = [0u8; 4096];
    match read_map(file, &mut cells) {
        Ok(s) => {
            let n = s.nodes();
            let shelf = Shelf {
                sizes: s,
                cells: &cells[..n],
            };
            map_report(page, &shelf);
        }
        Err(r) => refusal_line(page, u32::from(r) as usize),
    }
}
