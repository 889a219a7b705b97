// Reads a text line by line.
ghost use Rattle.std.specs.Prelude.{◌≡◌, false, length, MatchResult, OnErr};
ghost use Rattle.book.specs.Held.{held};
ghost use Rattle.book.specs.Plain.{new_book};
ghost use Rattle.format.specs.Entered.{add};
ghost use Rattle.format.specs.Faults.{fault_at};
ghost use Rattle.reader.specs.Names.{Stands};
ghost use Rattle.reader.specs.Going.{Begun, Due, Taken, Faulty, LineThere, NoLine, finished};
ghost use Rattle.reader.specs.Pieces.{Lies};
ghost use Rattle.format.specs.declared.parts.FileFault.TheVariants.{TooLong};

use crate::lines::{Head, count, head_of};
use crate::piece::Piece;
use crate::place::{Unread, fault};
use crate::register::{Entry, Register};
use crate::state::{Reader, Section};
use book::keeping::Book;
use book::parts::Refusal;
use format::parts::{Fault, FileFault, NamePlace, Work};
use std::alloc::Global;

// Enters a job or a check in the book.
fn enter(book: &mut Book, entry: Entry) -> Result<usize, Refusal>
    ensures answer { result ≡ (add entry.work (held book.old) entry.label).answer }
    ensures after { held book.new ≡ (add entry.work (held book.old) entry.label).after }
{
    match entry.work {
        Work::Job => book.add_job(entry.label),
        Work::Check => book.add_check(entry.label),
    }
}

impl<'a> Reader<'a> {
    // A reader at the front of a text.
    fn new(text: &'a [u8]) -> Result<Reader<'a>, Fault>
        ensures { MatchResult result (Begun text.now) (λ e. e ≡ fault_at TooLong 0 0) }
    {
        if text.len() > 8192 {
            return Err(fault(FileFault::TooLong, 0, 0));
        }
        let rest = Piece {
            bytes: text,
            line: 1,
            byte: 0,
        };
        Ok(Reader {
            text,
            rest,
            section: Section::Top,
        })
    }

    // The next line, which must have its line feed; the reader moves past it.
    fn line(&mut self) -> Result<Piece<'a>, Fault>
        ensures cases { MatchResult result (LineThere self.old self.new) (NoLine self.old) }
        ensures text { self.new.text ≡ self.old.text }
        ensures section { self.new.section ≡ self.old.section }
    {
        let (line, rest) = self.rest.part(b'\n');
        let Some(rest) = rest else {
            let end = line.byte + line.bytes.len();
            return Err(fault(FileFault::Unfinished, line.line, end));
        };
        self.rest = Piece {
            bytes: rest.bytes,
            line: rest.line + 1,
            byte: rest.byte,
        };
        Ok(line)
    }

    // Enters what a line says, or alters nothing: what it may be depends on the section and its first word. The book and the name list are
    // lent and altered, so they stay parameters.
    fn take(
        &mut self,
        line: Piece<'a>,
        book: &mut Book,
        names: &mut [NamePlace],
    ) -> Result<(), Fault>
        requires lies { Lies self.old.text.now line }
        requires stands { Stands self.old.text.now names.old (held book.old) }
        requires due { Due (length names.old) self.old.section (length (held book.old).jobs) }
        requires open { finished self.old.section ≡ false }
        ensures cases { MatchResult result
            (λ _. Taken self.old.text.now line.entry self.old.section
            names.old (held book.old) self.new.section names.new (held book.new))
            (λ e. Faulty self.old.text.now line.entry self.old.section
            names.old (held book.old) e names.new (held book.new)) }
        ensures text { self.new.text ≡ self.old.text }
        ensures rest { self.new.rest ≡ self.old.rest }
    {
        let register = Register {
            text: self.text,
            names: &*names,
            book: &*book,
        };
        let (first, _) = line.part(b' ');
        match (self.section, head_of(first.bytes)) {
            (Section::Top, Head::JobCount) => {
                let jobs = count(line, b"jobs")?;
                if jobs > names.len() {
                    return Err(line.fault(FileFault::NamesShort));
                }
                self.section = Section::Jobs(jobs);
            }
            (Section::Jobs(due), Head::BoundCount) if due == 0 => {
                let bounds = count(line, b"bounds")?;
                self.section = Section::Bounds(bounds);
            }
            (Section::Jobs(due), Head::OneJob) if due > 0 => {
                let entry = register.entry(line)?;
                let place = book.jobs().len() - 1;
                line.booked(enter(book, entry))?;
                names[place] = entry.name;
                self.section = Section::Jobs(due - 1);
            }
            (Section::Bounds(due), Head::OneBound) => {
                let bound = register.bound(line)?;
                line.booked(book.add_bound(bound))?;
                self.section = Section::Bounds(due - 1);
            }
            _ => return Err(line.fault(FileFault::WrongLine)),
        }
        Ok(())
    }

    // Whether the last line due has been read.
    fn done(&self) -> bool
        ensures { result ≡ finished self.now.section }
    {
        matches!(self.section, Section::Bounds(0))
    }

    // Reads on to the end of the text, into a new book.
    fn run(&mut self, book: &mut Book, names: &mut [NamePlace]) -> Result<(), Fault>
        requires fresh { held book.old ≡ new_book }
        requires due { Due (length names.old) self.old.section (length (held book.old).jobs) }
    {
        while !self.done() {
            let line = self.line()?;
            self.take(line, book, names)?;
        }
        if !self.rest.bytes.is_empty() {
            return Err(self.rest.fault(FileFault::Trailing));
        }
        Ok(())
    }
}

// Reads a text into a book and a list of names: the book holds what the text sets down, the list where each job's name stands.
// On a fault the book is as before, and the list has the names of the lines before the fault's line.
pub fn read(
    heap: Global,
    text: &[u8],
    book: &mut Book,
    names: &mut [NamePlace],
) -> Result<(), Unread>
    ensures kept { OnErr result (held book.new ≡ held book.old) }
{
    let mut fresh = Book::new(heap)?;
    Reader::new(text)?.run(&mut fresh, names)?;
    book.copy_from(&fresh);
    Ok(())
}
