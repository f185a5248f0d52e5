// What the programs that play cases share: a script's lines, words, numbers and bytes, and what is printed.
#![tactic(auto)]

pub mod printing;
pub mod reading;
