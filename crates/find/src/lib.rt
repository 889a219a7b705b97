// The least table that keeps the rules of a rule system, or that there is none, and a loop of rules that shows why.
#![tactic(auto)]

mod answers;
mod asking;
mod finding;
mod loops;
mod marks;
mod searching;
mod tables;
mod theorems;

pub use answers::{Explained, Found, Refusal};
pub use finding::find;
pub use loops::find_or_loop;
pub use theorems::{answers_exactly, explains_exactly};
