// What a map of each kind asks, and what it adds to the statements, as flags.
#![tactic(auto)]

pub mod added;
pub mod edge;
pub mod elements;
pub mod morphisms;
pub mod step;
pub mod yielding;
