// The planner from a new book to the end of a run, under one contract.
#![tactic(auto)]

pub mod outcome;
pub mod parts;
mod serving;
pub mod whole;
