// The plan book: jobs, checks and bounds, as a crew writes them down.
#![tactic(auto)]

pub mod calls;
mod copying;
pub mod keeping;
mod labels;
pub mod list;
pub mod parts;
mod refusals;
mod tables;
pub mod theorems;
