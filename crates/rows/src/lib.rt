// Rows of a structure, their images through a map, kernel pairs, constrained elements.
#![tactic(auto)]

pub mod arguments;
pub mod kernel;
pub mod link;
pub mod members;
pub mod morphism;
pub mod order;
pub mod table;
