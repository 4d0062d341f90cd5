// The picture of a refusal, layer by layer.
ghost use Rattle.std.specs.Prelude.{◌≡◌, ◌+◌, ◌≤◌, ◌<◌, length};
ghost use Rattle.mesh.specs.Cells.{map_of};
ghost use Rattle.paths.specs.Entries.{check_ends};
ghost use Rattle.rows.specs.Box.{OnAxis, Ready};
ghost use Rattle.text.specs.Text.{pieces, Said, Added};
ghost use Rattle.picture.specs.Picture.{told_wide, symbol_at, column_text, row_text, row_in, layer_head, layer_text, picture};
ghost use Rattle.picture.specs.Room.{symbols_room, row_room, rows_room, columns_room, layer_head_room, layers_room, picture_room, number_room};
ghost use Rattle.mesh.specs.Answers.{accepted};

use crate::ends::say_ends;
use crate::symbols::draw;
use mesh::Sizes;
use rows::{Between, Run};
use sweeps::boxes::between;
use text::{Page, say};

// Room for the line of the ends, and for a layer.
const ENDS_ROOM: usize = 189;

const LAYER_ROOM: usize = 2555;

// A coordinate, told by one form where it has one digit and by another where it has two.
fn tell_wide<const N: usize>(page: &mut Page<N>, one: &[u8], two: &[u8], n: usize)
    requires { (length two.now ≤ length one.now) × (length page.old + (length one.now + number_room) ≤ N) }
    ensures { Added page.old (told_wide one.now two.now n) (length one.now + number_room) page.new }
{
    if n < 10 {
        page.tell(one, &[n]);
    } else {
        page.tell(two, &[n]);
    }
}

// The symbols of a row of nodes.
fn row_symbols<const N: usize>(page: &mut Page<N>, drawn: &[u8], row: Run)
    requires { OnAxis row 4096 × OnAxis row (length drawn.now) × (row.steps < 16) × (length page.old + symbols_room ≤ N) }
    ensures { Added page.old (pieces (symbol_at drawn.now row) (row.steps + 1)) symbols_room page.new }
{
    for a in 0..row.steps + 1 {
        page.say(&[b' ', b' ', drawn[row.at(a)]]);
    }
}

// A row of nodes.
fn say_row<const N: usize>(page: &mut Page<N>, drawn: &[u8], y: usize, row: Run)
    requires { OnAxis row 4096 × OnAxis row (length drawn.now) × (row.steps < 16) × (length page.old + row_room ≤ N) }
    ensures { Added page.old (row_text drawn.now y row) row_room page.new }
{
    tell_wide(page, b"    y  %  ", b"    y %  ", y);
    row_symbols(page, drawn, row);
    let last = row.at(row.steps);
    page.tell(b"   nodes % to %\n", &[row.from, last]);
}

// All rows of the layer after c steps.
fn rows<const N: usize>(page: &mut Page<N>, s: Sizes, drawn: &[u8], g: Between, c: usize)
    requires { Ready s drawn.now g × (c ≤ g.z.steps) × (length page.old + rows_room ≤ N) }
    ensures { Added page.old (pieces (row_in s drawn.now g c) (g.y.steps + 1)) rows_room page.new }
{
    let y = g.y;
    for b in 0..y.steps + 1 {
        say_row(page, drawn, y.at(b), g.row(s, b, c));
    }
}

// The x of each column.
fn columns<const N: usize>(page: &mut Page<N>, x: Run)
    requires { OnAxis x 16 × (length page.old + columns_room ≤ N) }
    ensures { Added page.old (pieces (column_text x) (x.steps + 1)) columns_room page.new }
{
    for a in 0..x.steps + 1 {
        tell_wide(page, b"  %", b" %", x.at(a));
    }
}

// The z of a layer, and the columns.
fn layer_head<const N: usize>(page: &mut Page<N>, z: usize, x: Run)
    requires { OnAxis x 16 × (length page.old + layer_head_room ≤ N) }
    ensures { Added page.old (layer_head z x) layer_head_room page.new }
{
    page.tell(b"  layer z %\n    x     ", &[z]);
    columns(page, x);
    page.say(b"\n");
}

// The layer after c steps.
fn layer<const N: usize>(page: &mut Page<N>, s: Sizes, drawn: &[u8], g: Between, c: usize)
    requires { Ready s drawn.now g × (c ≤ g.z.steps) × (length page.old + (layer_head_room + rows_room) ≤ N) }
    ensures { Added page.old (layer_text s drawn.now g c) (layer_head_room + rows_room) page.new }
{
    let z = g.z;
    layer_head(page, z.at(c), g.x);
    rows(page, s, drawn, g, c);
}

// All layers.
fn layers<const N: usize>(page: &mut Page<N>, s: Sizes, drawn: &[u8], g: Between)
    requires { Ready s drawn.now g × (length page.old + layers_room ≤ N) }
    ensures { Added page.old (pieces (layer_text s drawn.now g) (g.z.steps + 1)) layers_room page.new }
{
    for c in 0..g.z.steps + 1 {
        layer(page, s, drawn, g, c);
    }
}

// The whole picture of a transfer whose ends may be used.
pub fn picture<const N: usize>(page: &mut Page<N>, s: Sizes, cells: &[u8], start: usize, end: usize)
    requires { (check_ends s cells.now start end ≡ accepted) × (length page.old + picture_room ≤ N) }
    ensures { Added page.old (picture (map_of s cells.now) start end) picture_room page.new }
{
    let mut drawn = [0u8; 4096];
    draw(s, cells, start, end, &mut drawn);
    let n = s.nodes();
    let u = s.place(start);
    let v = s.place(end);
    let g = between(u, v);
    say_ends(page, u, v, g);
    layers(page, s, &drawn[..n], g);
}

// All layers, stored in lent bytes: a page for one of them, since one for all costs more than a small picture.
fn layers_into(s: Sizes, drawn: &[u8], g: Between, out: &mut [u8], at: usize) -> usize
    requires { Ready s drawn.now g × (at + layers_room ≤ length out.old) }
    ensures { Said out.old at (pieces (layer_text s drawn.now g) (g.z.steps + 1)) out.new result
        × (result ≤ at + layers_room) }
{
    let mut page = Page::<LAYER_ROOM>::blank();
    let mut next = at;
    for c in 0..g.z.steps + 1 {
        page.clear();
        layer(&mut page, s, drawn, g, c);
        next = say(page.text(), out, next);
    }
    next
}

// The whole picture, stored in lent bytes.
pub fn picture_into(
    s: Sizes,
    cells: &[u8],
    start: usize,
    end: usize,
    out: &mut [u8],
    at: usize,
) -> usize
    requires { (check_ends s cells.now start end ≡ accepted) × (at + picture_room ≤ length out.old) }
    ensures { Said out.old at (picture (map_of s cells.now) start end) out.new result × (result ≤ at + picture_room) }
{
    let mut drawn = [0u8; 4096];
    draw(s, cells, start, end, &mut drawn);
    let n = s.nodes();
    let u = s.place(start);
    let v = s.place(end);
    let g = between(u, v);
    let mut page = Page::<ENDS_ROOM>::blank();
    say_ends(&mut page, u, v, g);
    let head = say(page.text(), out, at);
    layers_into(s, &drawn[..n], g, out, head)
}
