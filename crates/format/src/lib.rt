// The plan file: what a plan text is, and what a text gives, line by line.
#![tactic(auto)]

pub mod names;
pub mod parts;
pub mod theorems;
