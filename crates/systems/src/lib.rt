// The three rule systems of a book: strong, weak for one case, and dynamic.
#![tactic(auto)]

mod cases;
mod graded;
mod holds;
mod unknown;

pub use graded::{HoldSystem, RowSystem, dynamic_system, strong_system, weak_system};
