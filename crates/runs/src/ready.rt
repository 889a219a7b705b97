// Making a run sheet ready.
ghost use Rattle.std.specs.Prelude.{◌≡◌, IfOk, MatchOption};
ghost use Rattle.book.specs.Held.{held};
ghost use Rattle.book.specs.Plain.{new_book};
ghost use Rattle.walks.specs.Ready.{Ready};
ghost use Rattle.runs.specs.Sheets.{plan, NoDynamic, MakesReady};

use crate::sheet::{Readiness, RunSheet};
use book::keeping::Book;
use std::alloc::{AllocError, Global};
use verdicts::{DynamicAnswer, dynamic};

// The minutes of a book's earliest dynamic strategy, where it has one.
fn earliest(book: &Book) -> Option<[i32; 320]>
    ensures { MatchOption result (NoDynamic (held book.now)) (Ready (held book.now)) }
{
    let mut minutes = [0; 320];
    match dynamic(book, &mut minutes) {
        Ok(DynamicAnswer::Yes) => Some(minutes),
        Ok(DynamicAnswer::No) => None,
        // 320 numbers are enough for every book, so this does not come.
        Err(_) => None,
    }
}

impl RunSheet {
    // The sheet of a new book: `start` at minute 0.
    pub fn new(heap: Global) -> Result<RunSheet, AllocError>
        ensures { IfOk result (λ s. (plan s ≡ new_book) × Ready (plan s) s.minutes) }
    {
        let book = Book::new(heap)?;
        Ok(RunSheet {
            book,
            minutes: [0; 320],
        })
    }

    // Makes the sheet ready for a book, exactly where the book has a dynamic strategy; else the sheet is as before.
    pub fn make_ready(&mut self, book: &Book) -> Readiness
        ensures { MakesReady (held book.now) self.old self.new result }
    {
        match earliest(book) {
            Some(minutes) => {
                self.book.copy_from(book);
                self.minutes = minutes;
                Readiness::Yes
            }
            None => Readiness::No,
        }
    }
}
