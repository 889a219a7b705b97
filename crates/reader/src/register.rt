// The jobs that are known by their names.
ghost use Rattle.book.specs.Held.{held};
ghost use Rattle.reader.specs.Names.{Stands};

use book::keeping::Book;
use book::parts::Label;
use format::parts::{NamePlace, Work};

// The jobs entered so far: the book that holds them, and where their names stand in the text. `Names` are those of a whole plan, so the
// register, whose list still grows, has none.
#[derive(Clone, Copy)]
pub(crate) struct Register<'a> {
    pub(crate) text: &'a [u8],
    pub(crate) names: &'a [NamePlace],
    pub(crate) book: &'a Book,
    ghost stands: { Stands text.now names.now (held book.now) },
}

// What a line of the jobs section enters: a job or a check, where its name stands, and its label.
#[derive(Clone, Copy)]
pub(crate) struct Entry {
    pub(crate) work: Work,
    pub(crate) name: NamePlace,
    pub(crate) label: Label,
}
