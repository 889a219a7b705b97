// The states of a run. Each keeps the law of its log in its type, and none is `Drop`: a run that was begun is carried to its end.
ghost use Rattle.walks.specs.Logs.{Lawful, NoneAwaited, Asked, Ended};
ghost use Rattle.walks.proofs.Single.{lawful_single};
ghost use Rattle.runs.specs.Recorded.{recorded};
ghost use Rattle.runs.specs.Sheets.{plan, times};

use crate::log::Log;
use crate::sheet::RunSheet;
use walks::parts::Telling;

// A run sheet, and the lawful log of a run on it.
pub(crate) struct Run<'a> {
    pub(crate) sheet: &'a RunSheet,
    pub(crate) log: Log,
    ghost law: { Lawful (plan sheet.now) (times sheet.now) (recorded log) } by { lawful_single (plan sheet.now) (times sheet.now) (recorded log) },
}

// A run that can step.
pub struct Walking<'a> {
    pub(crate) run: Run<'a>,
    ghost idle: { NoneAwaited (plan run.sheet.now) (recorded run.log) },
}

// A run that waits for the outcome of a check.
pub struct Asking<'a> {
    pub(crate) run: Run<'a>,
    pub(crate) check: u8,
    ghost asks: { Asked (plan run.sheet.now) (recorded run.log) check },
}

// A run with no job left.
pub struct Finished<'a> {
    pub(crate) run: Run<'a>,
    ghost over: { Ended (plan run.sheet.now) (recorded run.log) },
}

// What a step gives: a telling and a run that walks on or asks, or a finished run.
pub enum Stepped<'a> {
    Walks(Telling, Walking<'a>),
    Asks(Telling, Asking<'a>),
    Ends(Finished<'a>),
}

// What a report gives: a run that asks for the next check, or one that walks on. Neither is a failure, so its names speak.
pub enum Answered<'a> {
    Asks(Asking<'a>),
    Walks(Walking<'a>),
}

// A check by its number, with the number of its job.
#[derive(Clone, Copy, PartialEq, Eq, Debug)]
pub struct Check {
    pub number: u8,
    pub job: usize,
}

// How many jobs were told, and the last minute told.
#[derive(Clone, Copy, PartialEq, Eq, Debug)]
pub struct Closed {
    pub jobs: u32,
    pub last: u32,
}
