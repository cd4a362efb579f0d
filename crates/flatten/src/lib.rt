// Flatten: the entry.
#![tactic(auto)]

pub mod entry;
