// From a plan text to its printed sheet.
#![tactic(auto)]

pub mod answer;
pub mod grade;
mod judge;
mod lines;
mod plan;
pub mod refusal;
pub mod verdict;
