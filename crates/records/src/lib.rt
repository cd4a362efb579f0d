#![tactic(auto)]

pub mod contents;
pub mod decimal;
pub mod fields;
pub mod iter;
pub mod names;
pub mod refusal;
pub mod write;
