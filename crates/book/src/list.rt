// Whole lists of calls.
ghost use Rattle.std.specs.Prelude.{◌≡◌, IfOk};
ghost use Rattle.book.specs.Plain.{new_book};
ghost use Rattle.book.specs.Held.{held};
ghost use Rattle.book.specs.Fed.{fed, answers, fed_one, answer_one};

use crate::keeping::Book;
use crate::parts::{Answer, Call, Taken};
use std::alloc::{AllocError, Global};

// A book, and the answers of the calls that made it.
#[derive(Drop)]
pub struct Carried {
    pub book: Book,
    pub given: Vec<Answer>,
}

// Carries out one call on a book.
pub fn carry(book: &mut Book, call: Call) -> Answer
    ensures answer { result ≡ answer_one (held book.old) call }
    ensures after { held book.new ≡ fed_one (held book.old) call }
{
    match call {
        Call::AddJob(label) => book.add_job(label).map(Taken::NewJob),
        Call::AddCheck(label) => book.add_check(label).map(Taken::NewJob),
        Call::AddBound(bound) => book.add_bound(bound).map(Taken::NewBound),
        Call::Withdraw(n) => book.withdraw(n).map(|_| Taken::Withdrawn),
    }
}

// Carries out all calls on a new book, first to last. Memory is wanted for the book and for the answers.
pub fn carry_out(heap: Global, calls: &[Call]) -> Result<Carried, AllocError>
    ensures { IfOk result (λ d. (held d.book ≡ fed calls.now) × (d.given.items ≡ answers new_book calls.now)) }
{
    let mut book = Book::new(heap)?;
    let mut given = Vec::with_capacity(heap, calls.len())?;
    for call in calls {
        given.push_reserved(carry(&mut book, *call));
    }
    Ok(Carried { book, given })
}
