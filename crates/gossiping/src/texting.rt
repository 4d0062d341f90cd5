// The text for a map file.
ghost use Rattle.std.specs.Prelude.{◌≡◌, ◌+◌, ◌≤◌, length, replicate};
ghost use Rattle.mesh.specs.Cells.{state_length};
ghost use Rattle.maps.specs.Shelf.{map_on};
ghost use Rattle.text.specs.Text.{Added};
ghost use Rattle.report.specs.Report.{orientations};
ghost use Rattle.rounds.specs.Links.{most_links};
ghost use Rattle.gossiping.specs.Text.{octant_text, octant_texts, map_text, gossip};
ghost use Rattle.gossiping.specs.Room.{octant_room, octants_room, gossip_room};

use crate::lines::{legend, settled_line, start_line};
use crate::talking::talk;
use counts::count_faulty;
use field::entry::fresh;
use mapfile::reader::read_map;
use maps::shelf::Shelf;
use report::lines::{first_line, refusal_line};
use report::reporting::orientations;
use rounds::figuring::working;
use rounds::rounds::{MOST_LINKS, links};
use states::bytes::state_length;
use text::Page;

// Room for a word on each link of the largest mesh: nothing is on the way.
fn blank_way() -> [u8; MOST_LINKS]
    ensures { result ≡ replicate most_links 0 }
{
    [0; MOST_LINKS]
}

// The text of an orientation.
fn octant_text<const N: usize>(page: &mut Page<N>, shelf: &Shelf, o: usize, state: &mut [u8])
    requires { (o ≤ 7) × (length state.old ≡ state_length shelf.now.sizes) × (length page.old + octant_room ≤ N) }
    ensures { Added page.old (octant_text (map_on shelf.now) o) octant_room page.new }
{
    let _ = fresh(shelf.sizes, shelf.cells, o, state);
    let mut way = blank_way();
    let n = links(shelf.sizes);
    let w = working(shelf);
    start_line(page, o, w);
    let r = talk(page, shelf, o, state, &mut way[..n]);
    settled_line(page, r, 2 * w + 1);
}

// The texts of all of them.
fn octant_texts<const N: usize>(page: &mut Page<N>, shelf: &Shelf, state: &mut [u8])
    requires { (length state.old ≡ state_length shelf.now.sizes) × (length page.old + octants_room ≤ N) }
    ensures { Added page.old (octant_texts (map_on shelf.now) (orientations shelf.now.sizes)) octants_room page.new }
{
    for o in 0..orientations(shelf.sizes) {
        octant_text(page, shelf, o, state);
    }
}

// The text for a shelf.
fn map_text<const N: usize>(page: &mut Page<N>, shelf: &Shelf)
    requires { length page.old + gossip_room ≤ N }
    ensures { Added page.old (map_text (map_on shelf.now)) gossip_room page.new }
{
    let mut state = [0u8; 65536];
    let long = state_length(shelf.sizes);
    first_line(page, shelf.sizes, count_faulty(shelf.cells));
    legend(page);
    octant_texts(page, shelf, &mut state[..long]);
}

// The text for a file. A refusal is told as the report tells it.
pub(crate) fn gossip(file: &[u8], page: &mut Page<65536>)
    ensures { (page.new ≡ gossip file.now) × (length page.new ≤ gossip_room) }
{
    page.clear();
    let mut cells = [0u8; 4096];
    match read_map(file, &mut cells) {
        Ok(s) => {
            let n = s.nodes();
            let shelf = Shelf {
                sizes: s,
                cells: &cells[..n],
            };
            map_text(page, &shelf);
        }
        Err(r) => refusal_line(page, u32::from(r) as usize),
    }
}
