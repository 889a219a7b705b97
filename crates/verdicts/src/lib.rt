// The three verdicts on a plan.
#![tactic(auto)]

pub mod answers;
mod filling;
mod searching;
mod theorems;
mod verdicts;

pub use answers::{DynamicAnswer, StrongAnswer, WeakAnswer};
pub use theorems::answers_exactly;
pub use verdicts::{dynamic, strong, weak};
