// A small rule system, made from a list of rows: for tests.
#![tactic(auto)]

mod listing;
mod numbered;
mod sound;
mod system;

pub use listing::listed;
pub use numbered::Numbered;
pub use system::Listed;
