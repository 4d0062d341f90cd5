// The text for one transfer.
#![tactic(auto)]

ghost use Rattle.std.specs.Prelude.{◌≡◌, [], ◌∷◌, ◌+◌, ◌≤◌, length, get_or, Err};
ghost use Rattle.mesh.specs.Mesh.{place_of};
ghost use Rattle.mesh.specs.Cells.{map_of};
ghost use Rattle.paths.specs.Differences.{hops};
ghost use Rattle.paths.specs.Offered.{route};
ghost use Rattle.paths.specs.Entries.{verdict_check, verdict_answer};
ghost use Rattle.text.specs.Text.{ascii, told, pieces, Said, Added};
ghost use Rattle.transfers.specs.Transfer.{granted_text, refused_text, transfer_text};
ghost use Rattle.transfers.specs.Words.{reason_line};
ghost use Rattle.transfers.specs.Room.{reason_room, route_room, granted_room, refused_room, transfer_room};
ghost use Rattle.mesh.specs.Answers.{accepted};
ghost use Rattle.mesh.specs.declared.Refusal.{Refusal};

use logfile::reading::line_of;
use mesh::{Refusal, Sizes};
use paths::Grant;
use picture::drawing::{picture, picture_into};
use routes::entries::route;
use text::{Page, say, tell};

// Room for a refusal in words, and for the hops and the route.
const REFUSED_ROOM: usize = 359;

const GRANTED_ROOM: usize = 1057;

// A line that ends with a refusal in words.
pub fn say_refusal<const N: usize>(page: &mut Page<N>, word: &[u8], r: Refusal)
    requires { length page.old + (length word.now + reason_room) ≤ N }
    ensures { Added page.old (reason_line word.now r) (length word.now + reason_room) page.new }
{
    // A table by number: the definition `reasons` has a line for each.
    let reasons = b"0: granted
1: a size is outside its range
2: the cells are not as many as the nodes
3: an output is too short
4: a cell is above 1
5: the mesh has no node of that number
6: the state is not sound
7: no such pair of working neighbours
8: the speaker lacks a mark of the word
9: the start or the end is faulty
10: no path
11: the file is no map file
";
    let reason = line_of(reasons, u32::from(r) as usize);
    page.say(word);
    page.say(reason);
    page.say(b"\n");
}

// The nodes of a route.
fn say_route<const N: usize>(page: &mut Page<N>, nodes: &[u16])
    requires { (length nodes.now ≤ 46) × (length page.old + route_room ≤ N) }
    ensures { Added page.old (pieces (λ i. told (ascii " %") (get_or nodes.now i 0 ∷ [])) (length nodes.now)) route_room page.new }
{
    for &node in nodes {
        page.tell(b" %", &[node as usize]);
    }
}

// The hops and the route.
fn say_granted<const N: usize>(page: &mut Page<N>, h: usize, nodes: &[u16])
    requires { (length nodes.now ≡ h + 1) × (h ≤ 45) × (length page.old + granted_room ≤ N) }
    ensures { Added page.old (granted_text h nodes.now) granted_room page.new }
{
    page.tell(b": granted, hops %, route", &[h]);
    say_route(page, nodes);
    page.say(b"\n");
}

// The text for a transfer that is granted.
fn granted<const N: usize>(
    page: &mut Page<N>,
    s: Sizes,
    cells: &[u8],
    start: usize,
    end: usize,
    h: usize,
)
    requires { (verdict_check s cells.now start end ≡ accepted) × (h ≡ hops (place_of s start) (place_of s end)) × (length page.old + granted_room ≤ N) }
    ensures { Added page.old (granted_text h (route (map_of s cells.now) (place_of s end) (place_of s start))) granted_room page.new }
{
    let mut nodes = [0u16; 46];
    let _ = route(s, cells, start, end, &mut nodes);
    say_granted(page, h, &nodes[..h + 1]);
}

// The refusal in words, and the picture where there is no path.
fn refused<const N: usize>(
    page: &mut Page<N>,
    s: Sizes,
    cells: &[u8],
    start: usize,
    end: usize,
    r: Refusal,
)
    requires { (verdict_answer s cells.now start end ≡ Err r) × (length page.old + refused_room ≤ N) }
    ensures { Added page.old (refused_text s cells.now start end r) refused_room page.new }
{
    say_refusal(page, b": refused ", r);
    if matches!(r, Refusal::NoPath) {
        picture(page, s, cells, start, end);
    }
}

// The text for a transfer with its verdict.
pub fn transfer<const N: usize>(
    page: &mut Page<N>,
    s: Sizes,
    cells: &[u8],
    k: usize,
    start: usize,
    end: usize,
    v: Result<Grant, Refusal>,
)
    requires { (v ≡ verdict_answer s cells.now start end) × (length page.old + transfer_room ≤ N) }
    ensures { Added page.old (transfer_text s cells.now k start end) transfer_room page.new }
{
    page.tell(b"line %: % to %", &[k, start, end]);
    match v {
        Ok(g) => granted(page, s, cells, start, end, g.hops),
        Err(r) => refused(page, s, cells, start, end, r),
    }
}

// A refusal and its picture, stored in lent bytes.
fn refused_into(
    s: Sizes,
    cells: &[u8],
    start: usize,
    end: usize,
    r: Refusal,
    out: &mut [u8],
    at: usize,
) -> usize
    requires { (verdict_answer s cells.now start end ≡ Err r) × (at + refused_room ≤ length out.old) }
    ensures { Said out.old at (refused_text s cells.now start end r) out.new result × (result ≤ at + refused_room) }
{
    let mut page = Page::<REFUSED_ROOM>::blank();
    say_refusal(&mut page, b": refused ", r);
    let next = say(page.text(), out, at);
    if matches!(r, Refusal::NoPath) {
        return picture_into(s, cells, start, end, out, next);
    }
    next
}

// The text for a transfer with its verdict, stored in lent bytes: a page for what is short, since one for a picture too costs more than the rest.
pub fn transfer_into(
    s: Sizes,
    cells: &[u8],
    k: usize,
    start: usize,
    end: usize,
    v: Result<Grant, Refusal>,
    out: &mut [u8],
) -> usize
    requires { (v ≡ verdict_answer s cells.now start end) × (transfer_room ≤ length out.old) }
    ensures { Said out.old 0 (transfer_text s cells.now k start end) out.new result × (result ≤ transfer_room) }
{
    let next = tell(b"line %: % to %", &[k, start, end], out, 0);
    match v {
        Ok(g) => {
            let mut page = Page::<GRANTED_ROOM>::blank();
            granted(&mut page, s, cells, start, end, g.hops);
            say(page.text(), out, next)
        }
        Err(r) => refused_into(s, cells, start, end, r, out, next),
    }
}
