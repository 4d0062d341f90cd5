// Routes: the verdict of a transfer, its route, and what is reached on the way, as `paths` defines them.
#![tactic(auto)]

pub mod entries;
