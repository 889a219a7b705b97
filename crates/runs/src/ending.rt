// How the walk of a whole run ends.
use crate::log::Log;
use crate::state::{Check, Closed};

// The log of a run, how it ended, and how many outcomes it used. It ended closed, or it asks for a check with no outcome left for it.
#[derive(Drop)]
pub struct Walked {
    pub log: Log,
    pub ending: Result<Closed, Check>,
    pub used: usize,
}

// The log of a run that lacks an outcome, and the check that it asks for.
pub(crate) struct Lacking {
    pub(crate) log: Log,
    pub(crate) check: Check,
}
