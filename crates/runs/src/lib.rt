// Runs: a crew is told the right jobs at the right minutes, whatever it reports.
#![tactic(auto)]

mod asks;
pub mod ending;
pub mod going;
pub mod log;
pub mod ready;
pub mod record;
mod rows;
pub mod sheet;
pub mod state;
mod timetable;
pub mod walk;
