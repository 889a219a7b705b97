// Rule systems: places held back by rules, the questions by which a system tells them, and the tables that rules are stored in.
#![tactic(auto)]

pub mod collected;
pub mod parts;
pub mod rows;
pub mod stored;
pub mod system;
pub mod table;
pub mod theorems;
