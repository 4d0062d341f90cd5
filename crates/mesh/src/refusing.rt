// The number of a refusal.
ghost use Rattle.std.specs.Prelude.{◌≡◌};
ghost use Rattle.mesh.specs.Answers.{refusal_no};

use crate::Refusal;

impl From<Refusal> for u32 {
    ghost from_gives = { λ r n. n ≡ refusal_no r };

    fn from(r: Refusal) -> u32 {
        match r {
            Refusal::BadSizes => 1,
            Refusal::BadLength => 2,
            Refusal::NoRoom => 3,
            Refusal::BadCell(_) => 4,
            Refusal::BadNumber => 5,
            Refusal::Unsound => 6,
            Refusal::NoPair => 7,
            Refusal::NotHeld => 8,
            Refusal::FaultyEnd => 9,
            Refusal::NoPath => 10,
            Refusal::BadFile => 11,
        }
    }
}
