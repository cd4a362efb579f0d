// The rule record: its N, S, E, R, A, V, I, M, K and X fields, their faults, the index of them, and what they say.
#![tactic(auto)]

pub mod element_list;
pub mod elements;
pub mod els;
pub mod faults;
pub mod ids;
pub mod known;
pub mod map;
pub mod name;
pub mod order;
pub mod pass;
pub mod reader;
pub mod row;
pub mod search;
pub mod sections;
pub mod tail;
pub mod views;
