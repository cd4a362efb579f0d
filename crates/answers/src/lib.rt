// What the programs print, as functions from bytes to bytes: a program reads its input, calls one of these and prints.
#![tactic(auto)]

pub mod desk;
