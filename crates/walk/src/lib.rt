// The walk over the maps, and the tables that it leaves.
#![tactic(auto)]

pub mod reached;
pub mod tables;
pub mod walk;
pub mod walked;
