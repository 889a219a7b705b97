// The whole of the planner in one call. The lists are a caller's, filled in part, so they stay parameters.
ghost use Rattle.std.specs.Prelude.{◌≡◌, MatchResult};
ghost use Rattle.promise.specs.Whole.{Promise};

use crate::outcome::Outcome;
use crate::parts::Request;
use crate::serving::serve_all;
use book::keeping::Book;
use find::find;
use rules::parts::Origin;
use rules::system::RuleSystem;
use runs::sheet::{Readiness, RunSheet};
use runs::walk::walk;
use std::alloc::{AllocError, Global};

// From a new book: serves all requests, searches a rule system, makes a sheet ready from the book and walks a run on it. Memory is
// wanted only before anything is altered.
pub fn plan_and_run<T: RuleSystem>(
    heap: Global,
    requests: &[Request],
    minutes: &mut [i32],
    loops: &mut [Origin],
    system: &T,
    table: &mut [i32],
    outcomes: &[bool],
) -> Result<Outcome, AllocError>
    ensures { MatchResult result
        (λ o. Promise requests.now (T.meaning system.now) outcomes.now
        (record { minutes = minutes.old; loops = loops.old; table = table.old })
        (record { minutes = minutes.new; loops = loops.new; table = table.new }) o)
        (λ _. (minutes.new ≡ minutes.old) × (loops.new ≡ loops.old) × (table.new ≡ table.old)) }
{
    let mut book = Book::new(heap)?;
    let mut sheet = RunSheet::new(heap)?;
    let mut replies = Vec::with_capacity(heap, requests.len())?;
    serve_all(&mut book, requests, minutes, loops, &mut replies);
    let found = find(system, table);
    let run = match sheet.make_ready(&book) {
        Readiness::Yes => Some(walk(&sheet, outcomes)),
        Readiness::No => None,
    };
    Ok(Outcome {
        book,
        replies,
        found,
        run,
    })
}
