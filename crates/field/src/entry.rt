// The public calls on a state. Each takes every input.
ghost use Rattle.std.specs.Prelude.{◌≡◌, length};
ghost use Rattle.talk.specs.Hear.{changed};
ghost use Rattle.talk.specs.Entries.{fresh_answer, fresh_out, sound_answer, outstanding_answer, hear_answer, hear_out};
ghost use Rattle.mesh.specs.Answers.{accepted};
ghost use Rattle.mesh.specs.declared.Refusal.{Refusal};

use crate::checks::{check_fresh, check_numbers, check_question, unless};
use making::put_fresh;
use mesh::{Refusal, Sizes};
use scans::{all_right, scan};
use states::bytes::{fits, rule_byte};
use states::pairs::{pair, says};

// A fresh state of the map: refusals 1, 2, 4 and 5.
#[tactic(auto, using(talk::proofs::Calls::fresh_passed))]
pub fn fresh(s: Sizes, cells: &[u8], orientation: usize, state: &mut [u8]) -> Result<(), Refusal>
    ensures value { result ≡ fresh_answer s cells.now orientation (length state.old) }
    ensures state_after { state.new ≡ fresh_out s cells.now orientation state.old }
{
    let shelf = check_fresh(s, cells, orientation, state.len())?;
    put_fresh(&shelf, orientation, state);
    Ok(())
}

// Is the state sound? Refusals 1, 2, 5 and 6.
#[tactic(auto, using(crate::proofs::Taken::question_ready), unfolding(talk::specs::Entries::sound_answer))]
pub fn sound(s: Sizes, orientation: usize, state: &[u8]) -> Result<(), Refusal>
    ensures { result ≡ sound_answer s orientation state.now }
{
    check_question(s, orientation, state.len())?;
    unless(all_right(s, orientation, state), Refusal::Unsound)
}

// How many words are outstanding: refusals 1, 2, 5 and 6.
#[tactic(auto, using(crate::proofs::Taken::question_ready), unfolding(talk::specs::Entries::outstanding_answer, talk::specs::Entries::sound_answer))]
pub fn outstanding(s: Sizes, orientation: usize, state: &[u8]) -> Result<usize, Refusal>
    ensures { result ≡ outstanding_answer s orientation state.now }
{
    check_question(s, orientation, state.len())?;
    scan(s, orientation, state)
}

// Refusals 1, 2, 5, 6, 7 and 8.
#[tactic(auto, using(crate::proofs::Taken::numbers, crate::proofs::Taken::word_low, crate::proofs::Taken::held_last), unfolding(talk::specs::Entries::hear_answer))]
fn check_hear(
    s: Sizes,
    o: usize,
    k: usize,
    j: usize,
    word: usize,
    state: &[u8],
) -> Result<(), Refusal>
    ensures { result ≡ hear_answer s o k j word state.now }
{
    check_numbers(s, state.len(), o, k, j, word)?;
    unless(all_right(s, o, state), Refusal::Unsound)?;
    unless(pair(s, state, k, j), Refusal::NoPair)?;
    unless(fits(says(s, state, k, j), word as u8), Refusal::NotHeld)
}

// The word's marks are added to the byte heard; then the listener's own byte is set by the rule.
fn take(s: Sizes, o: usize, k: usize, j: usize, word: usize, state: &mut [u8])
    requires { hear_answer s o k j word state.old ≡ accepted }
    ensures { state.new ≡ changed s o k j word state.old }
{
    let own = 7 * k;
    let at = own + 1 + j;
    state[at] |= word as u8;
    state[own] = rule_byte(s, o, state, k);
}

// The listener hears a word from a direction: refusals 1, 2, 5, 6, 7 and 8.
pub fn hear(
    s: Sizes,
    orientation: usize,
    listener: usize,
    direction: usize,
    word: usize,
    state: &mut [u8],
) -> Result<(), Refusal>
    ensures value { result ≡ hear_answer s orientation listener direction word state.old }
    ensures state_after { state.new ≡ hear_out s orientation listener direction word state.old }
{
    check_hear(s, orientation, listener, direction, word, state)?;
    take(s, orientation, listener, direction, word, state);
    Ok(())
}
