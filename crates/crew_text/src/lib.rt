// A crew led through a run: from a plan text and the outcomes of its checks to what is told.
#![tactic(auto)]

pub mod lead;
mod lines;
mod outcomes;
pub mod program;
