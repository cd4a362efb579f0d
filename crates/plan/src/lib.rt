// Which maps are walked, and of which kinds.
#![tactic(auto)]

pub mod plan;
pub mod sources;
pub mod table;
