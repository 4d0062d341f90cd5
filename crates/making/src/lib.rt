// Making a fresh state: heard words are 0, and own bytes follow from that. The nodes in their order, row by row.
#![tactic(auto)]

ghost use Rattle.std.specs.Prelude.{◌≡◌, ◌+◌, ◌*◌, ◌<◌, ◌≤◌, length};
ghost use Rattle.mesh.specs.Mesh.{Inside, number};
ghost use Rattle.mesh.specs.Cells.{state_length};
ghost use Rattle.maps.specs.Shelf.{map_on};
ghost use Rattle.talk.specs.Sound.{fresh};
ghost use Rattle.states.specs.Six.{Held, byte_at};
ghost use Rattle.making.specs.Making.{Put, Fresh};

use maps::faulty_cell;
use maps::shelf::Shelf;
use mesh::Place;
use states::bytes::faulty_hears;
use states::sides::around;
use states::six::Six;

// Stores the seven bytes of node k: its own, and the six that it hears.
fn put_bytes(state: &mut [u8], k: usize, own: u8, heard: Six)
    requires { Held state.old k }
    ensures { Put state.old state.new k own (byte_at heard.bytes) }
{
    let at = 7 * k;
    state[at] = own;
    state[at + 1..at + 7].copy_from_slice(&heard.bytes.to_le_bytes()[..6]);
}

// The seven bytes of the node at p, those before it being done. A neighbour that says 0 is heard as its cell.
fn put_node(shelf: &Shelf, o: usize, state: &mut [u8], p: Place)
    requires { (o ≤ 7) × Inside shelf.now.sizes p × Fresh (map_on shelf.now) o (number shelf.now.sizes p) state.old }
    ensures { Fresh (map_on shelf.now) o (number shelf.now.sizes p + 1) state.new }
{
    let s = shelf.sizes;
    let k = s.number(p);
    if faulty_cell(shelf.cells[k]) {
        put_bytes(state, k, 1, Six::each(faulty_hears()));
    } else {
        let heard = around(s, shelf.cells, 1, p, k);
        put_bytes(state, k, heard.ruled(s, o), heard);
    }
}

// A row of nodes.
fn put_row(shelf: &Shelf, o: usize, state: &mut [u8], row: usize)
    requires { (o ≤ 7) × (row < shelf.now.sizes.h * shelf.now.sizes.d) × Fresh (map_on shelf.now) o (shelf.now.sizes.w * row) state.old }
    ensures { Fresh (map_on shelf.now) o (shelf.now.sizes.w * (row + 1)) state.new }
{
    let s = shelf.sizes;
    let y = row % s.h;
    let z = row / s.h;
    for x in 0..s.w {
        put_node(shelf, o, state, Place { x, y, z });
    }
}

// The fresh state of a map.
pub fn put_fresh(shelf: &Shelf, o: usize, state: &mut [u8])
    requires { (o ≤ 7) × (length state.old ≡ state_length shelf.now.sizes) }
    ensures { state.new ≡ fresh (map_on shelf.now) o }
{
    for row in 0..shelf.sizes.h * shelf.sizes.d {
        put_row(shelf, o, state, row);
    }
}
