// Reads a plan text into a book.
#![tactic(auto)]

mod lines;
mod names;
mod piece;
pub mod place;
pub mod reading;
mod register;
mod scan;
pub mod section;
pub mod state;
mod words;

pub use crate::place::Unread;
pub use crate::reading::read;
