// Reading a run sheet.
ghost use Rattle.walks.specs.Standing.{Opens};
ghost use Rattle.runs.specs.Sheets.{plan, times};

use crate::rows::first_from;
use crate::sheet::RunSheet;
use walks::parts::Telling;

impl RunSheet {
    // What comes first in a case from a minute on.
    pub(crate) fn first(&self, case: u8, from: u64) -> Option<Telling>
        ensures { Opens (plan self.now) (times self.now) case from result }
    {
        let row = self
            .minutes
            .chunks_exact(self.book.jobs().len())
            .nth(case as usize)?;
        first_from(row, from)
    }
}
