// What goes in and out at the boundary: sizes and places made from numbers, and the fields of each answer. include/dukthari.h declares the answers:
// C has no Result, so a number stands for the refusal, and 0 for none.
#![tactic(auto)]

ghost use Rattle.std.specs.Prelude.{◌≡◌, Ok, Err};
ghost use Rattle.mesh.specs.Mesh.{sizes, place};
ghost use Rattle.mesh.specs.Answers.{refusal_bad, answer_bad};
ghost use Rattle.answers.specs.Fields.{Fits, node_fields, PlaceFits, PlacedFits, place_fields, done_fields, NumberedFits, counted_fields, VerdictFits, verdict_fields, MapFits, map_fields};
ghost use Rattle.mesh.specs.declared.Refusal.{Refusal};

use mesh::{Place, Refusal, Sizes};
use paths::Grant;

#[repr(C)]
#[derive(Clone, Copy)]
pub struct NodeAnswer {
    pub refusal: u32,
    pub node: u32,
}

#[repr(C)]
#[derive(Clone, Copy)]
pub struct PlaceAnswer {
    pub refusal: u32,
    pub x: u32,
    pub y: u32,
    pub z: u32,
}

// there: 1, or 0 where the mesh ends.
#[repr(C)]
#[derive(Clone, Copy)]
pub struct StepAnswer {
    pub refusal: u32,
    pub there: u32,
    pub x: u32,
    pub y: u32,
    pub z: u32,
}

#[repr(C)]
#[derive(Clone, Copy)]
pub struct DoneAnswer {
    pub refusal: u32,
    pub bad: u32,
}

#[repr(C)]
#[derive(Clone, Copy)]
pub struct CountedAnswer {
    pub refusal: u32,
    pub bad: u32,
    pub count: u32,
}

#[repr(C)]
#[derive(Clone, Copy)]
pub struct VerdictAnswer {
    pub refusal: u32,
    pub bad: u32,
    pub hops: u32,
    pub offered: u32,
}

#[repr(C)]
#[derive(Clone, Copy)]
pub struct MapAnswer {
    pub refusal: u32,
    pub bad: u32,
    pub w: u32,
    pub h: u32,
    pub d: u32,
}

// Sizes, of any three numbers.
pub fn sizes_of(w: u32, h: u32, d: u32) -> Sizes
    ensures { result ≡ sizes w h d }
{
    Sizes {
        w: w as usize,
        h: h as usize,
        d: d as usize,
    }
}

// A place, of any three numbers.
pub fn place_at(x: u32, y: u32, z: u32) -> Place
    ensures { result ≡ place x y z }
{
    Place {
        x: x as usize,
        y: y as usize,
        z: z as usize,
    }
}

// The fields of a number.
pub fn node_fields(a: Result<usize, Refusal>) -> NodeAnswer
    requires { NumberedFits a }
    ensures { result ≡ node_fields a }
{
    match a {
        Ok(n) => {
            let node = n as u32;
            NodeAnswer { refusal: 0, node }
        }
        Err(r) => NodeAnswer {
            refusal: u32::from(r),
            node: 0,
        },
    }
}

// The coordinates of a place.
pub fn coordinates(p: Place) -> PlaceAnswer
    requires { PlaceFits p }
    ensures { result ≡ place_fields (Ok p) }
{
    let x = p.x as u32;
    let y = p.y as u32;
    let z = p.z as u32;
    PlaceAnswer {
        refusal: 0,
        x,
        y,
        z,
    }
}

// The fields of a place.
pub fn place_fields(a: Result<Place, Refusal>) -> PlaceAnswer
    requires { PlacedFits a }
    ensures { result ≡ place_fields a }
{
    match a {
        Ok(p) => coordinates(p),
        Err(r) => PlaceAnswer {
            refusal: u32::from(r),
            x: 0,
            y: 0,
            z: 0,
        },
    }
}

// The fields of a refusal: its number, and the first bad cell or 0.
fn refused(r: Refusal) -> DoneAnswer
    requires { Fits (refusal_bad r) }
    ensures { result ≡ done_fields (Err r) }
{
    let refusal = u32::from(r);
    let Refusal::BadCell(k) = r else {
        return DoneAnswer { refusal, bad: 0 };
    };
    let bad = k as u32;
    DoneAnswer { refusal, bad }
}

// The fields of an answer without a value.
pub fn done_fields(a: Result<(), Refusal>) -> DoneAnswer
    requires { Fits (answer_bad a) }
    ensures { result ≡ done_fields a }
{
    match a {
        Ok(()) => DoneAnswer { refusal: 0, bad: 0 },
        Err(r) => refused(r),
    }
}

// The fields of a count.
pub fn counted_fields(a: Result<usize, Refusal>) -> CountedAnswer
    requires { NumberedFits a }
    ensures { result ≡ counted_fields a }
{
    match a {
        Ok(n) => {
            let count = n as u32;
            CountedAnswer {
                refusal: 0,
                bad: 0,
                count,
            }
        }
        Err(r) => {
            let a = refused(r);
            CountedAnswer {
                refusal: a.refusal,
                bad: a.bad,
                count: 0,
            }
        }
    }
}

// The fields of a verdict.
pub fn verdict_fields(a: Result<Grant, Refusal>) -> VerdictAnswer
    requires { VerdictFits a }
    ensures { result ≡ verdict_fields a }
{
    match a {
        Ok(g) => VerdictAnswer {
            refusal: 0,
            bad: 0,
            hops: g.hops as u32,
            offered: g.offered as u32,
        },
        Err(r) => {
            let a = refused(r);
            VerdictAnswer {
                refusal: a.refusal,
                bad: a.bad,
                hops: 0,
                offered: 0,
            }
        }
    }
}

// The fields of a map that was read.
pub fn map_fields(a: Result<Sizes, Refusal>) -> MapAnswer
    requires { MapFits a }
    ensures { result ≡ map_fields a }
{
    match a {
        Ok(s) => {
            let w = s.w as u32;
            let h = s.h as u32;
            let d = s.d as u32;
            MapAnswer {
                refusal: 0,
                bad: 0,
                w,
                h,
                d,
            }
        }
        Err(r) => {
            let a = refused(r);
            MapAnswer {
                refusal: a.refusal,
                bad: a.bad,
                w: 0,
                h: 0,
                d: 0,
            }
        }
    }
}
