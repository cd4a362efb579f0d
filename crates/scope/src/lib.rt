// Scope: which model owns a rule of a group, and the owners as a part of the group's bytes.
#![tactic(auto)]

pub mod answers;
pub mod infer;
pub mod rules;
pub mod verdicts;
