// The group record: its G, W, U, B and H fields, their faults, what its variables and statements say, and how they are written.
#![tactic(auto)]

pub mod faults;
pub mod ids;
pub mod lookup;
pub mod reader;
pub mod rule;
pub mod statement;
pub mod write;
