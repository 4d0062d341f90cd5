// The calls on the state of the talking nodes.
ghost use Rattle.std.specs.Prelude.{◌≡◌, length};
ghost use Rattle.mesh.specs.Mesh.{sizes};
ghost use Rattle.talk.specs.Entries.{fresh_answer, fresh_out, sound_answer, outstanding_answer, hear_answer, hear_out};
ghost use Rattle.answers.specs.Fields.{done_fields, counted_fields};

use answers::{CountedAnswer, DoneAnswer, counted_fields, done_fields, sizes_of};

// A fresh state of a map. Refusals: 1, 2, 4, 5.
#[unsafe(no_mangle)]
#[tactic(auto, using(crate::proofs::Small::fresh_fits))]
pub extern "C" fn dk_fresh(
    w: u32,
    h: u32,
    d: u32,
    orientation: u32,
    cells: &[u8],
    state: &mut [u8],
) -> DoneAnswer
    ensures value { result ≡ done_fields (fresh_answer (sizes w h d) cells.now orientation (length state.old)) }
    ensures state_after { state.new ≡ fresh_out (sizes w h d) cells.now orientation state.old }
{
    let a = field::entry::fresh(sizes_of(w, h, d), cells, orientation as usize, state);
    done_fields(a)
}

// Is the state sound? Refusals: 1, 2, 5, 6.
#[unsafe(no_mangle)]
#[tactic(auto, using(crate::proofs::Small::sound_fits))]
pub extern "C" fn dk_sound(w: u32, h: u32, d: u32, orientation: u32, state: &[u8]) -> DoneAnswer
    ensures { result ≡ done_fields (sound_answer (sizes w h d) orientation state.now) }
{
    let a = field::entry::sound(sizes_of(w, h, d), orientation as usize, state);
    done_fields(a)
}

// How many words are outstanding. Refusals: 1, 2, 5, 6.
#[unsafe(no_mangle)]
pub extern "C" fn dk_outstanding(
    w: u32,
    h: u32,
    d: u32,
    orientation: u32,
    state: &[u8],
) -> CountedAnswer
    ensures { result ≡ counted_fields (outstanding_answer (sizes w h d) orientation state.now) }
{
    let a = field::entry::outstanding(sizes_of(w, h, d), orientation as usize, state);
    counted_fields(a)
}

// The listener hears a word from a direction. Refusals: 1, 2, 5, 6, 7, 8.
#[unsafe(no_mangle)]
#[tactic(auto, using(crate::proofs::Small::hear_fits))]
pub extern "C" fn dk_hear(
    w: u32,
    h: u32,
    d: u32,
    orientation: u32,
    listener: u32,
    direction: u32,
    word: u32,
    state: &mut [u8],
) -> DoneAnswer
    ensures value { result ≡ done_fields (hear_answer (sizes w h d) orientation listener direction word state.old) }
    ensures state_after { state.new ≡ hear_out (sizes w h d) orientation listener direction word state.old }
{
    let a = field::entry::hear(
        sizes_of(w, h, d),
        orientation as usize,
        listener as usize,
        direction as usize,
        word as usize,
        state,
    );
    done_fields(a)
}
