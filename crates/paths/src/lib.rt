// Direct routes: what a path, its hops, the offered set and the route are, and what the calls owe. Its specs/ say it;
// its only code is the type that they speak of.
#![tactic(auto)]

// What a verdict grants: the hops, and the offered set at the start.
#[derive(Clone, Copy, Debug, PartialEq, Eq, Hash)]
pub struct Grant {
    pub hops: usize,
    pub offered: u8,
}
