// The checks before the calls on a state. Each takes every input.
ghost use Rattle.std.specs.Prelude.{◌≡◌, IfOk};
ghost use Rattle.mesh.specs.Answers.{◌and_then◌, unless, check_orientation, check_node, check_direction};
ghost use Rattle.maps.specs.Shelf.{checked};
ghost use Rattle.rules.specs.Marks.{is_word};
ghost use Rattle.talk.specs.Entries.{check_state, check_word, fresh_answer};

use maps::shelf::Shelf;
use mesh::{Refusal, Sizes};
use states::bytes::state_length;

// Refused by r unless the test holds.
pub(crate) fn unless(ok: bool, r: Refusal) -> Result<(), Refusal>
    ensures { result ≡ unless ok r }
{
    ok.then_some(()).ok_or(r)
}

// Refusals 1 and 2, for a state of so many bytes.
#[tactic(auto, using(mesh::proofs::Answers::sizes_of), unfolding(talk::specs::Entries::check_state))]
fn check_state(s: Sizes, long: usize) -> Result<(), Refusal>
    ensures { result ≡ check_state s long }
{
    if !s.in_range() {
        return Err(Refusal::BadSizes);
    }
    unless(long == state_length(s), Refusal::BadLength)
}

// Refusals 1, 2, 4 and 5, for a room of so many bytes; else the map as a shelf.
#[tactic(auto, unfolding(talk::specs::Entries::fresh_answer))]
pub(crate) fn check_fresh<'a>(
    s: Sizes,
    cells: &'a [u8],
    o: usize,
    room: usize,
) -> Result<Shelf<'a>, Refusal>
    ensures { (checked result ≡ fresh_answer s cells.now o room) × IfOk result (λ a. (a.sizes ≡ s) × (a.cells.now ≡ cells.now)) }
{
    check_state(s, room)?;
    let shelf = Shelf::of(s, cells)?;
    unless(o <= 7, Refusal::BadNumber)?;
    Ok(shelf)
}

// Refusals 1, 2 and 5, for a question about a state of so many bytes.
pub(crate) fn check_question(s: Sizes, o: usize, long: usize) -> Result<(), Refusal>
    ensures { result ≡ check_state s long and_then check_orientation o }
{
    check_state(s, long)?;
    unless(o <= 7, Refusal::BadNumber)
}

// Is it a word: 0, 2, 4 or 6?
#[tactic(auto, unfolding(rules::specs::Marks::is_word))]
fn is_word(word: usize) -> bool
    ensures { result ≡ is_word word }
{
    matches!(word, 0 | 2 | 4 | 6)
}

// The numbers of a call of hear: refusals 1, 2 and 5.
#[tactic(auto, using(crate::proofs::Taken::state_sized, crate::proofs::Taken::three_tests, mesh::proofs::Answers::split))]
pub(crate) fn check_numbers(
    s: Sizes,
    long: usize,
    o: usize,
    k: usize,
    j: usize,
    word: usize,
) -> Result<(), Refusal>
    ensures { result ≡ check_state s long and_then check_orientation o and_then check_node s k and_then check_direction j and_then check_word word }
{
    check_question(s, o, long)?;
    unless(
        (k < s.nodes()) & (j <= 5) & is_word(word),
        Refusal::BadNumber,
    )
}
