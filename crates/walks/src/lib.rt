// Logs of runs, and the law that they keep.
#![tactic(auto)]

pub mod parts;
pub mod theorems;
