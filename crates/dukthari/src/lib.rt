// The C boundary: every public entry, thin, with no `requires`. include/dukthari.h declares it.
#![tactic(auto)]

ghost use Rattle.std.specs.Prelude.{◌≡◌, length};
ghost use Rattle.mesh.specs.Mesh.{sizes, place};
ghost use Rattle.mesh.specs.Answers.{number_answer, place_answer, step_answer};
ghost use Rattle.rules.specs.Entry.{marks_answer, marks_out};
ghost use Rattle.touching.specs.Entry.{components_answer, components_table, components_row};
ghost use Rattle.paths.specs.Entries.{verdict_answer, route_answer, route_out, reached_answer, reached_out};
ghost use Rattle.answers.specs.Fields.{node_fields, place_fields, step_fields, done_fields, counted_fields, verdict_fields};

use answers::{
    CountedAnswer, DoneAnswer, NodeAnswer, PlaceAnswer, StepAnswer, VerdictAnswer, coordinates,
    counted_fields, done_fields, node_fields, place_at, place_fields, sizes_of, verdict_fields,
};
use components::Found;
use components::storing::store;
use touching::Component;

pub mod files;
pub mod state_calls;

// The number of a place. Refusals: 1, 5.
#[unsafe(no_mangle)]
pub extern "C" fn dk_number(w: u32, h: u32, d: u32, x: u32, y: u32, z: u32) -> NodeAnswer
    ensures { result ≡ node_fields (number_answer (sizes w h d) (place x y z)) }
{
    let a = mesh::entries::number_of(sizes_of(w, h, d), place_at(x, y, z));
    node_fields(a)
}

// The place of a node. Refusals: 1, 5.
#[unsafe(no_mangle)]
#[tactic(auto, using(crate::proofs::Small::place_fits))]
pub extern "C" fn dk_place(w: u32, h: u32, d: u32, node: u32) -> PlaceAnswer
    ensures { result ≡ place_fields (place_answer (sizes w h d) node) }
{
    let a = mesh::entries::place_of(sizes_of(w, h, d), node as usize);
    place_fields(a)
}

// The coordinates where there is no place.
const NOWHERE: PlaceAnswer = PlaceAnswer {
    refusal: 0,
    x: 0,
    y: 0,
    z: 0,
};

// A step from a place. Refusals: 1, 5. Its fields are made here: returned by a function, they took a fifth more instructions.
#[unsafe(no_mangle)]
#[tactic(auto, using(crate::proofs::Small::step_fits))]
pub extern "C" fn dk_step(
    w: u32,
    h: u32,
    d: u32,
    x: u32,
    y: u32,
    z: u32,
    direction: u32,
) -> StepAnswer
    ensures { result ≡ step_fields (step_answer (sizes w h d) (place x y z) direction) }
{
    let a = mesh::entries::step_from(sizes_of(w, h, d), place_at(x, y, z), direction as usize);
    let (refusal, there, p) = match a {
        Ok(Some(q)) => (0, 1, coordinates(q)),
        Ok(None) => (0, 0, NOWHERE),
        Err(r) => (u32::from(r), 0, NOWHERE),
    };
    StepAnswer {
        refusal,
        there,
        x: p.x,
        y: p.y,
        z: p.z,
    }
}

// The mark bytes of a map in an orientation. Refusals: 1, 2, 4, 5, 3.
#[unsafe(no_mangle)]
#[tactic(auto, using(crate::proofs::Small::marks_fits))]
pub extern "C" fn dk_marks(
    w: u32,
    h: u32,
    d: u32,
    orientation: u32,
    cells: &[u8],
    out: &mut [u8],
) -> DoneAnswer
    ensures value { result ≡ done_fields (marks_answer (sizes w h d) cells.now orientation (length out.old)) }
    ensures out_after { out.new ≡ marks_out (sizes w h d) cells.now orientation out.old }
{
    let a = marks::entry::marks(sizes_of(w, h, d), cells, orientation as usize, out);
    done_fields(a)
}

// The components of a map: the table of numbers, and the row of records. Refusals: 1, 2, 4, 5, 3.
#[unsafe(no_mangle)]
pub extern "C" fn dk_components(
    w: u32,
    h: u32,
    d: u32,
    orientation: u32,
    cells: &[u8],
    table: &mut [u16],
    row: &mut [Component],
) -> CountedAnswer
    ensures { (result ≡ counted_fields (components_answer (sizes w h d) cells.now orientation (length table.old) (length row.old)))
        × (table.new ≡ components_table (sizes w h d) cells.now orientation table.old row.old)
        × (row.new ≡ components_row (sizes w h d) cells.now orientation table.old row.old) }
{
    let mut found = Found::none();
    let a = components::entry::compute(
        sizes_of(w, h, d),
        cells,
        orientation as usize,
        table,
        row.len(),
        &mut found,
    );
    store(found.as_slice(), row);
    counted_fields(a)
}

// The hops and the offered set at the start. Refusals: 1, 2, 4, 5, 9, 10.
#[unsafe(no_mangle)]
pub extern "C" fn dk_verdict(
    w: u32,
    h: u32,
    d: u32,
    start: u32,
    end: u32,
    cells: &[u8],
) -> VerdictAnswer
    ensures { result ≡ verdict_fields (verdict_answer (sizes w h d) cells.now start end) }
{
    let a = routes::entries::verdict(sizes_of(w, h, d), cells, start as usize, end as usize);
    verdict_fields(a)
}

// The route: its nodes to the front of out, and how many. Refusals: 1, 2, 4, 5, 9, 10, 3.
#[unsafe(no_mangle)]
pub extern "C" fn dk_route(
    w: u32,
    h: u32,
    d: u32,
    start: u32,
    end: u32,
    cells: &[u8],
    out: &mut [u16],
) -> CountedAnswer
    ensures value { result ≡ counted_fields (route_answer (sizes w h d) cells.now start end (length out.old)) }
    ensures out_after { out.new ≡ route_out (sizes w h d) cells.now start end out.old }
{
    let a = routes::entries::route(sizes_of(w, h, d), cells, start as usize, end as usize, out);
    counted_fields(a)
}

// What is reached: one byte for each node to the front of out, 1 where preferred steps towards the end lead from the start to it, and how
// many are 1. Refusals: 1, 2, 4, 5, 9, 3.
#[unsafe(no_mangle)]
pub extern "C" fn dk_reached(
    w: u32,
    h: u32,
    d: u32,
    start: u32,
    end: u32,
    cells: &[u8],
    out: &mut [u8],
) -> CountedAnswer
    ensures value { result ≡ counted_fields (reached_answer (sizes w h d) cells.now start end (length out.old)) }
    ensures out_after { out.new ≡ reached_out (sizes w h d) cells.now start end out.old }
{
    let a = routes::entries::reached(sizes_of(w, h, d), cells, start as usize, end as usize, out);
    counted_fields(a)
}
