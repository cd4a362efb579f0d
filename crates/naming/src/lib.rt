// Which variable each element gets, and the variables' names.
#![tactic(auto)]

pub mod assign;
pub mod bases;
pub mod types;
pub mod variables;
pub mod writer;
