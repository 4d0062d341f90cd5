// The numbers by which words meet their fate.
ghost use Rattle.std.specs.Prelude.{◌≡◌, ◌<◌};
ghost use Rattle.rounds.specs.Chance.{following, chosen, fate_of};

// What becomes of a word.
#[derive(Clone, Copy, Debug, PartialEq, Eq)]
pub enum Fate {
    Lost,
    Late,
    Twice,
    Once,
}

impl Fate {
    // That which a number chooses.
    pub fn of(g: u32) -> Fate
        ensures { result ≡ fate_of (chosen 8 g) }
    {
        match chosen(8, g as usize) {
            0 | 1 => Fate::Lost,
            2 | 3 => Fate::Late,
            4 => Fate::Twice,
            _ => Fate::Once,
        }
    }
}

// The number before the first.
pub const SEED: u32 = 1;

// Each number from the one before.
#[tactic(auto, unfolding(crate::specs::Chance::following))]
pub fn following(g: u32) -> u32
    ensures { result ≡ following g }
{
    g.wrapping_mul(1664525).wrapping_add(1013904223)
}

// What a number chooses, of n.
#[tactic(auto, unfolding(crate::specs::Chance::chosen))]
pub fn chosen(n: usize, g: usize) -> usize
    requires { 0 < n }
    ensures { (result ≡ chosen n g) × (result < n) }
{
    g / 65536 % n
}
