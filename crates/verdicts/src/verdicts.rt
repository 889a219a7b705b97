// The verdicts. The book and the caller's lists stay parameters side by side: the lists are filled in part, a rule of the project, and
// a struct that holds a `&mut` to one can keep no fact about it in its type. Each verdict has refusals and a table of its own, so what
// they share stays as short as this. The tables are arrays, since a verdict wants no memory.
ghost use Rattle.std.specs.Prelude.{◌≡◌, ◌≤◌, length};
ghost use Rattle.book.specs.Held.{held};
ghost use Rattle.verdicts.specs.declared.answers.WeakAnswer.TheVariants.{No as WeakNo};
ghost use Rattle.verdicts.specs.Filling.{StrongEnds, DynamicEnds};
ghost use Rattle.verdicts.specs.Verdicts.{size, StrongAnswered, WeakAnswered, DynamicAnswered};

use crate::answers::{DynamicAnswer, StrongAnswer, WeakAnswer};
use crate::filling::fill;
use crate::searching::{search_case, search_dynamic, search_strong};
use book::keeping::Book;
use find::{Explained, Found, Refusal};
use rules::parts::Origin;

// How many numbers a yes writes.
fn size(book: &Book) -> usize
    ensures { result ≡ size (held book.now) }
{
    book.cases() as usize * book.jobs().len()
}

// Fills the minutes list with the table that the strong search found, if any, and says what to answer.
fn end_strong(found: Explained, book: &Book, table: &[i32], minutes: &mut [i32]) -> StrongAnswer
    requires wide { length (held book.now).jobs ≤ length table.now }
    requires room { size (held book.now) ≤ length minutes.old }
    ensures { StrongEnds found (held book.now) table.now minutes.old minutes.new result }
{
    match found {
        Explained::Table => {
            fill(book, table, 0, minutes);
            StrongAnswer::Yes
        }
        Explained::Loop(length) => StrongAnswer::No { length },
    }
}

// Whether one timetable serves every outcome.
pub fn strong(
    book: &Book,
    minutes: &mut [i32],
    loops: &mut [Origin],
) -> Result<StrongAnswer, Refusal>
    ensures { StrongAnswered (held book.now) minutes.old minutes.new loops.old loops.new result }
{
    if minutes.len() < size(book) {
        return Err(Refusal::MinutesShort);
    }
    if loops.len() < 20 {
        return Err(Refusal::LoopShort);
    }
    let mut table = [0i32; 20];
    let found = search_strong(book, &mut table, loops)?;
    Ok(end_strong(found, book, &table, minutes))
}

// The answer where a case fails, with how many of its rules are a loop.
fn fails(case: u8, length: usize) -> WeakAnswer
    ensures { result ≡ WeakNo case length }
{
    WeakAnswer::No { case, length }
}

// Whether there is a timetable for each set of outcomes, known in advance.
pub fn weak(book: &Book, minutes: &mut [i32], loops: &mut [Origin]) -> Result<WeakAnswer, Refusal>
    ensures { WeakAnswered (held book.now) minutes.old minutes.new loops.old loops.new result }
{
    if minutes.len() < size(book) {
        return Err(Refusal::MinutesShort);
    }
    if loops.len() < 20 {
        return Err(Refusal::LoopShort);
    }
    let mut table = [0i32; 320];
    for case in 0..book.cases() {
        let found = search_case(book, case, &mut table, loops)?;
        match found {
            Explained::Table => {}
            Explained::Loop(length) => return Ok(fails(case, length)),
        }
    }
    fill(book, &table, book.jobs().len(), minutes);
    Ok(WeakAnswer::Yes)
}

// Fills the minutes list with the table that the dynamic search found, if any, and says what to answer.
fn end_dynamic(found: Found, book: &Book, table: &[i32], minutes: &mut [i32]) -> DynamicAnswer
    requires wide { 320 ≤ length table.now }
    requires room { size (held book.now) ≤ length minutes.old }
    ensures { DynamicEnds found (held book.now) table.now minutes.old minutes.new result }
{
    let jobs = book.jobs().len();
    match found {
        Found::Table => {
            fill(book, table, jobs, minutes);
            DynamicAnswer::Yes
        }
        Found::NoTable => DynamicAnswer::No,
    }
}

// Whether there are timetables that part only after a check has told them apart.
pub fn dynamic(book: &Book, minutes: &mut [i32]) -> Result<DynamicAnswer, Refusal>
    ensures { DynamicAnswered (held book.now) minutes.old minutes.new result }
{
    if minutes.len() < size(book) {
        return Err(Refusal::MinutesShort);
    }
    let mut table = [0i32; 320];
    let found = search_dynamic(book, &mut table)?;
    Ok(end_dynamic(found, book, &table, minutes))
}
