// The recorded list's cases, apart from the calls: which line may come, and what it puts into the machine and into what is due of it.
#![tactic(auto)]

pub mod kind;
pub mod lines;
pub mod state;
pub mod verdict;
