// The signature record: its T, P and F fields, their faults, and the arities that they give.
#![tactic(auto)]

pub mod faults;
pub mod ids;
pub mod lookup;
pub mod reader;
