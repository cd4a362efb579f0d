// Statements as bytes.
#![tactic(auto)]

pub mod equalities;
pub mod lengths;
pub mod masks;
pub mod members;
pub mod numbered;
pub mod sections;
pub mod writer;
