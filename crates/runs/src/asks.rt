// Which check is to be asked for.
ghost use Rattle.std.specs.Prelude.{◌≡◌, ◌<◌, Decides};
ghost use Rattle.book.specs.Held.{held};
ghost use Rattle.book.specs.Plain.{checks};
ghost use Rattle.walks.specs.Logs.{Has};
ghost use Rattle.walks.specs.Sought.{Sought, LowestSought};

use crate::log::Log;
use book::keeping::Book;

// Whether a set has a number.
fn has(set: u32, k: u32) -> bool
    requires low { k < 32 }
    ensures { Decides result (Has set k) }
{
    (set >> k) % 2 == 1
}

impl Log {
    // Whether check `c` is among the jobs just told and was not heard of.
    fn seeks(&self, book: &Book, c: u8) -> bool
        requires known { c < checks (held book.now) }
        ensures { Decides result (Sought (held book.now) self.now.just self.now.heard c) }
    {
        book.check_job(c).is_some_and(|job| has(self.just, job as u32)
            && !has(self.heard as u32, c as u32))
    }

    // The lowest check sought.
    pub(crate) fn lowest_sought(&self, book: &Book) -> Option<u8>
        ensures { LowestSought (held book.now) self.now.just self.now.heard result }
    {
        (0..book.checks()).find(|c| self.seeks(book, *c))
    }
}
