// Walking a whole run from a list of outcomes.
ghost use Rattle.std.specs.Prelude.{◌≡◌, ◌++◌};
ghost use Rattle.runs.specs.Recorded.{recorded};
ghost use Rattle.runs.specs.Walks.{outcomes_of, Gives, Goes, WalksSo};

use crate::ending::{Lacking, Walked};
use crate::sheet::RunSheet;
use crate::state::{Answered, Asking, Finished, Run, Stepped, Walking};

// Gives a run that asks its outcomes, until it walks on or no outcome is left; answers the run with the outcomes left.
fn give<'a, 'b>(
    asking: Asking<'a>,
    outcomes: &'b [bool],
) -> Result<(Walking<'a>, &'b [bool]), Lacking>
    ensures { Gives asking.entry.run.sheet.now (recorded asking.entry.run.log) outcomes.now result }
{
    let mut run = asking;
    let mut left = outcomes;
    while let Some((yes, rest)) = left.split_first() {
        match run.report(*yes) {
            Answered::Walks(walking) => return Ok((walking, rest)),
            Answered::Asks(again) => run = again,
        }
        left = rest;
    }
    let check = run.check();
    let Asking {
        run: Run { sheet: _, log },
        check: _,
    } = run;
    Err(Lacking { log, check })
}

// Takes a run to its end, and answers it with the outcomes left.
fn go<'a, 'b>(
    walking: Walking<'a>,
    outcomes: &'b [bool],
) -> Result<(Finished<'a>, &'b [bool]), Lacking>
    ensures { Goes walking.entry.run.sheet.now (recorded walking.entry.run.log) outcomes.now result }
{
    let mut run = walking;
    let mut left = outcomes;
    loop {
        match run.step() {
            Stepped::Walks(_, walking) => run = walking,
            Stepped::Asks(_, asking) => (run, left) = give(asking, left)?,
            Stepped::Ends(finished) => return Ok((finished, left)),
        }
    }
}

// Walks a run, and answers its log, how it ended and how many outcomes it used.
pub fn walk(sheet: &RunSheet, outcomes: &[bool]) -> Walked
    ensures { WalksSo sheet.now outcomes.now result }
{
    match go(sheet.set_out(), outcomes) {
        Ok((finished, left)) => {
            let closed = finished.numbers();
            let Finished {
                run: Run { sheet: _, log },
            } = finished;
            Walked {
                log,
                ending: Ok(closed),
                used: outcomes.len() - left.len(),
            }
        }
        Err(Lacking { log, check }) => Walked {
            log,
            ending: Err(check),
            used: outcomes.len(),
        },
    }
}
