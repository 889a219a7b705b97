// What a reader of plan files answers with.
ghost use Rattle.std.specs.Prelude.{◌≡◌};
ghost use Rattle.format.specs.declared.parts.Reason.TheVariants.{Book};

use book::parts::Refusal;
use std::fmt;

// What is wrong with a file itself, by its number.
#[derive(Clone, Copy, Debug, PartialEq, Eq)]
pub enum FileFault {
    TooLong = 15,
    Unfinished = 16,
    WrongLine = 17,
    NotANumber = 18,
    BadName = 19,
    NameTaken = 20,
    NameReserved = 21,
    UnknownName = 22,
    Trailing = 23,
    NamesShort = 24,
}

impl FileFault {
    ghost use Rattle.format.specs.Faults.{file_number};

    // The number of the fault: one line for each such enum, since a trait would be longer.
    pub fn number(self) -> u8
        ensures { result ≡ file_number self }
    {
        self as u8
    }
}

// What is wrong, in words.
impl fmt::Display for FileFault {
    ghost use Rattle.std.specs.Prelude.{Some};
    ghost use Rattle.format.specs.Messages.{file_words};

    ghost output = { λ f. Some (file_words f) };

    fn fmt<W: fmt::Write>(&self, f: &mut fmt::Formatter<W>) -> fmt::Result {
        f.write_str(match self {
            FileFault::TooLong => "the text is too long",
            FileFault::Unfinished => "the text ends before its last line does",
            FileFault::WrongLine => "this line is not the one that is due",
            FileFault::NotANumber => "a number is wanted",
            FileFault::BadName => "this is no name",
            FileFault::NameTaken => "the name is taken",
            FileFault::NameReserved => "the name is reserved",
            FileFault::UnknownName => "the name is not known",
            FileFault::Trailing => "the text goes on after its last line",
            FileFault::NamesShort => "there are too many jobs",
        })
    }
}

// A fault of the file, or a refusal of the book.
#[derive(Clone, Copy, Debug, PartialEq, Eq)]
pub enum Reason {
    File(FileFault),
    Book(Refusal),
}

impl Reason {
    ghost use Rattle.format.specs.Faults.{reason_number};

    // The number of the fault or of the refusal.
    pub fn number(self) -> u8
        ensures { result ≡ reason_number self }
    {
        match self {
            Reason::File(fault) => fault.number(),
            Reason::Book(refusal) => refusal.number(),
        }
    }
}

// A refusal is kept whole.
impl From<Refusal> for Reason {
    ghost from_gives = { λ e r. r ≡ Book e };

    fn from(e: Refusal) -> Reason {
        Reason::Book(e)
    }
}

// What is wrong, in words, or the number of the book's refusal.
impl fmt::Display for Reason {
    ghost use Rattle.std.specs.Prelude.{Some};
    ghost use Rattle.format.specs.Messages.{reason_words};

    ghost output = { λ r. Some (reason_words r) };

    fn fmt<W: fmt::Write>(&self, f: &mut fmt::Formatter<W>) -> fmt::Result {
        match self {
            Reason::File(fault) => write!(f, "{fault}"),
            Reason::Book(refusal) => {
                let number = refusal.number();
                write!(f, "the book refuses it by refusal {number}")
            }
        }
    }
}

// A fault and where it is: the line from 1, the byte from 0.
#[derive(Clone, Copy, Debug, PartialEq, Eq)]
pub struct Fault {
    pub reason: Reason,
    pub line: usize,
    pub byte: usize,
}

// Where the fault is, and what is wrong there.
impl fmt::Display for Fault {
    ghost use Rattle.std.specs.Prelude.{Some};
    ghost use Rattle.format.specs.Messages.{fault_words};

    ghost output = { λ f. Some (fault_words f) };

    fn fmt<W: fmt::Write>(&self, f: &mut fmt::Formatter<W>) -> fmt::Result {
        let Fault { reason, line, byte } = *self;
        write!(f, "fault in line {line} at byte {byte}: {reason}")
    }
}

// What a line of the jobs section adds.
#[derive(Clone, Copy, Debug, PartialEq, Eq)]
pub enum Work {
    Job,
    Check,
}

// The sign before a check's name: a plus wants yes of it, a minus no.
#[derive(Clone, Copy, Debug, PartialEq, Eq)]
pub enum Sign {
    Plus,
    Minus,
}

// Where a name stands in a text.
#[derive(Clone, Copy, Debug, Default, PartialEq, Eq)]
pub struct NamePlace {
    pub byte: usize,
    pub length: usize,
}
