// Leading a crew through the run of a plan text.
ghost use Rattle.std.specs.Prelude.{◌≡◌, ◌<◌, length, IfOk, codes};

use crate::lines::{put_ending, put_events};
use crate::outcomes::{Unsaid, outcomes};
use book::keeping::Book;
use format::names::{Names, Plan};
use format::parts::NamePlace;
use page::Page;
use reader::{Unread, read};
use runs::sheet::{Readiness, RunSheet};
use runs::walk::walk;
use std::alloc::{AllocError, Global};

// Puts the run of a plan, if it is dynamic: its log, and how it ended.
fn put_plan(
    page: &mut Page,
    heap: Global,
    plan: Plan<'_>,
    outcomes: &[bool],
) -> Result<(), AllocError> {
    let mut sheet = RunSheet::new(heap)?;
    match sheet.make_ready(plan.book) {
        Readiness::No => page.push(b"the plan is not dynamic: no crew is led through it\n"),
        Readiness::Yes => {
            let walked = walk(&sheet, outcomes);
            put_events(page, plan, walked.log.events())?;
            put_ending(page, plan.names, &walked, outcomes.len())
        }
    }
}

// Puts the run of a plan text, or its fault. A plan file has room for 99 names. The sheet begins alike and differs in each arm; a function
// for both would have to lend the book and the places to what it is given.
fn put_text(
    page: &mut Page,
    heap: Global,
    text: &[u8],
    outcomes: &[bool],
) -> Result<(), AllocError> {
    let mut book = Book::new(heap)?;
    let mut places = [NamePlace::default(); 99];
    match read(heap, text, &mut book, &mut places) {
        Ok(()) => match Names::new(text, &places) {
            Some(names) => put_plan(page, heap, Plan { book: &book, names }, outcomes),
            // A plan's names do stand in its text; no clause of `read` says so yet.
            None => page.push(b"a name is not in the text\n"),
        },
        Err(Unread::Fault(fault)) => write!(page, "{fault}\n"),
        Err(Unread::NoMemory) => Err(AllocError),
    }
}

// What a crew reads that is led through the run of a plan text, its checks having these outcomes in the order in which they are asked.
pub fn lead(heap: Global, text: &[u8], words: &[String]) -> Result<Vec<u8>, AllocError>
    ensures { IfOk result (λ v. 4 < length words.now → v.items ≡ codes "too many outcomes: a plan has at most 4 checks\n") }
{
    let mut page = Page::new(heap);
    match outcomes(heap, words) {
        Ok(outcomes) => put_text(&mut page, heap, text, outcomes.as_slice())?,
        // Each is put as one line here, and the first is in the contract.
        Err(Unsaid::TooMany) => page.push(b"too many outcomes: a plan has at most 4 checks\n")?,
        Err(Unsaid::NeitherYesNorNo) => page.push(b"an outcome is neither yes nor no\n")?,
        Err(Unsaid::NoMemory(e)) => return Err(e),
    }
    Ok(page.into_bytes())
}
