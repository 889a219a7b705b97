// From a plan text to its sheet.
ghost use Rattle.std.specs.Prelude.{◌≤◌, length, IfOk, OnOk};
ghost use Rattle.sheet.specs.Printed.{SheetOf, Answered};
ghost use Rattle.sheet.specs.Judged.{TextPut};

use crate::lines::put_fault;
use crate::plan::put_plan;
use crate::refusal::Refusal;
use book::keeping::Book;
use format::names::{Names, Plan};
use format::parts::NamePlace;
use page::Page;
use reader::{Unread, read};
use std::alloc::{AllocError, Global};

// Puts the sheet of a text: of its fault, or of its plan. The crew's text begins alike and differs in each arm; a function for both would
// have to lend the book and the places to what it is given. A plan file has room for 99 names.
fn put_text(page: &mut Page, heap: Global, text: &[u8]) -> Result<(), AllocError>
    ensures { OnOk result (TextPut text.now page.old page.new) }
{
    let mut book = Book::new(heap)?;
    let mut places = [NamePlace::default(); 99];
    match read(heap, text, &mut book, &mut places) {
        Ok(()) => {
            // A plan's names do stand in its text; no clause of `read` says so yet, so this answers as for want of memory.
            let Some(names) = Names::new(text, &places) else {
                return Err(AllocError);
            };
            put_plan(page, Plan { book: &book, names })
        }
        Err(Unread::Fault(fault)) => put_fault(page, fault),
        Err(Unread::NoMemory) => Err(AllocError),
    }
}

// The sheet of a text.
fn sheet(heap: Global, text: &[u8]) -> Result<Page, AllocError>
    ensures { IfOk result (λ page. SheetOf text.now page × (length page ≤ 8192)) }
{
    let mut page = Page::with_capacity(heap, 8192)?;
    put_text(&mut page, heap, text)?;
    Ok(page)
}

// Writes the sheet of a plan text over the front of the output, and answers its length; a refusal alters nothing.
pub fn answer(heap: Global, text: &[u8], out: &mut [u8]) -> Result<usize, Refusal>
    ensures { Answered text.now out.old out.new result }
{
    if out.len() < 8192 {
        return Err(Refusal::OutputShort);
    }
    let page = sheet(heap, text)?;
    let sheet = page.as_bytes();
    out[..sheet.len()].copy_from_slice(sheet);
    Ok(sheet.len())
}
