// How a run goes.
ghost use Rattle.std.specs.Prelude.{◌≡◌, [], ◌∷◌};
ghost use Rattle.book.specs.Plain.{asking};
ghost use Rattle.walks.specs.declared.parts.Event.TheVariants.{Reported};
ghost use Rattle.walks.specs.Logs.{Asked};
ghost use Rattle.walks.specs.Standing.{Opens};
ghost use Rattle.runs.specs.Recorded.{recorded};
ghost use Rattle.runs.specs.Sheets.{plan, times};
ghost use Rattle.runs.specs.Steps.{Walks, Steps, Answers, AskedOf, Closes, Ran, reported};

use crate::log::Log;
use crate::sheet::RunSheet;
use crate::state::{Answered, Asking, Check, Closed, Finished, Run, Stepped, Walking};
use walks::parts::{Report, Telling};

impl RunSheet {
    // Sets out on a run.
    pub fn set_out(&self) -> Walking<'_>
        ensures { Walks self.now [] result }
    {
        Walking {
            run: Run {
                sheet: self,
                log: Log::new(),
            },
        }
    }
}

impl<'a> Run<'a> {
    // Asks for the lowest check awaited, or walks on.
    #[tactic(auto, using(crate::proofs::Carried::going_on))]
    fn go_on(self) -> Answered<'a>
        ensures { Answers self.entry.sheet.now (recorded self.entry.log) result }
    {
        let book = &self.sheet.book;
        match self.log.lowest_sought(book) {
            None => Answered::Walks(Walking { run: self }),
            Some(check) => Answered::Asks(Asking { run: self, check }),
        }
    }
}

impl<'a> Walking<'a> {
    // Tells what comes next, or finishes with nothing more to come.
    fn take(self, next: Option<Telling>) -> Stepped<'a>
        requires next { Opens (plan self.run.sheet.now) (times self.run.sheet.now) self.run.log.yes self.run.log.time next }
        ensures { Steps self.entry.run.sheet.now (recorded self.entry.run.log) result }
    {
        let Walking { mut run } = self;
        let Some(telling) = next else {
            return Stepped::Ends(Finished { run });
        };
        run.log.tell(telling);
        match run.go_on() {
            Answered::Walks(walking) => Stepped::Walks(telling, walking),
            Answered::Asks(asking) => Stepped::Asks(telling, asking),
        }
    }

    // Goes to the next minute that has a job, and tells that minute and all jobs due in it; with no job left the run is finished. The
    // case of the checks reported yes leads: every case that agrees with the reports has the same jobs next.
    pub fn step(self) -> Stepped<'a>
        ensures { Steps self.entry.run.sheet.now (recorded self.entry.run.log) result }
    {
        let next = self.run.sheet.first(self.run.log.yes, self.run.log.time);
        self.take(next)
    }
}

impl<'a> Asking<'a> {
    // The check that is asked for.
    pub fn check(&self) -> Check
        ensures { AskedOf self.now result }
    {
        Check {
            number: self.check,
            job: self.run.sheet.book.check_job(self.check).unwrap(),
        }
    }

    // Records the outcome, and asks for the next check or walks on.
    fn hear(self, report: Report) -> Answered<'a>
        requires asked { report.check ≡ self.check }
        ensures { Answers self.entry.run.sheet.now (Reported report ∷ recorded self.entry.run.log) result }
    {
        let Asking { mut run, check: _ } = self;
        run.log.report(report);
        run.go_on()
    }

    // Takes the outcome of the check that is asked for; then the next check is asked for, or the run walks on.
    pub fn report(self, yes: bool) -> Answered<'a>
        ensures { Answers self.entry.run.sheet.now (reported self.entry.check yes ∷ recorded self.entry.run.log) result }
    {
        let check = self.check;
        self.hear(Report { check, yes })
    }
}

impl<'a> Finished<'a> {
    // How many jobs were told, and the last minute told.
    pub(crate) fn numbers(&self) -> Closed
        ensures numbers { Closes (recorded self.now.run.log) result }
        ensures run { Ran self.now.run.sheet.now (recorded self.now.run.log) }
    {
        Closed {
            jobs: self.run.log.told.count_ones(),
            last: (self.run.log.time - 1) as u32,
        }
    }

    // Closes the run, and answers how many jobs were told and the last minute told.
    pub fn close(self) -> Closed
        ensures numbers { Closes (recorded self.entry.run.log) result }
        ensures run { Ran self.entry.run.sheet.now (recorded self.entry.run.log) }
    {
        let closed = self.numbers();
        let Finished {
            run: Run { sheet: _, log: _ },
        } = self;
        closed
    }
}
