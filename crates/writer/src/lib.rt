// The group as bytes, from the tables of the walk: its name, its variables, its rules.
#![tactic(auto)]

pub mod lengths;
pub mod output;
pub mod premise;
pub mod rules;
pub mod variables;
