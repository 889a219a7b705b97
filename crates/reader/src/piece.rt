// Pieces of a text and their places.
ghost use Rattle.std.specs.Prelude.{◌≡◌, ◌+◌, ◌≤◌, length};

use crate::place::fault;
use book::parts::Refusal;
use format::parts::{Fault, FileFault};

// A piece of a text: its bytes, the line that it begins on, and the place of its first byte.
#[derive(Clone, Copy)]
pub struct Piece<'a> {
    pub(crate) bytes: &'a [u8],
    pub(crate) line: usize,
    pub(crate) byte: usize,
    ghost inside: { byte + length bytes.now ≤ 8192 },
    ghost counted: { line ≤ byte + 1 },
}

impl<'a> Piece<'a> {
    ghost use Rattle.reader.specs.Pieces.{Parted};
    ghost use Rattle.format.specs.Faults.{fault_at, booked};

    // A fault of the file at the piece's first byte.
    pub(crate) fn fault(self, what: FileFault) -> Fault
        ensures { result ≡ fault_at what self.entry.line self.entry.byte }
    {
        fault(what, self.line, self.byte)
    }

    // What the book answers to the piece's line: a refusal is a fault there.
    pub(crate) fn booked(self, answer: Result<usize, Refusal>) -> Result<(), Fault>
        ensures { result ≡ booked self.entry.line self.entry.byte answer tt }
    {
        match answer {
            Ok(_) => Ok(()),
            Err(refusal) => Err(Fault {
                reason: refusal.into(),
                line: self.line,
                byte: self.byte,
            }),
        }
    }

    // The front up to the first byte c, and what stands after that byte, if there is one.
    pub(crate) fn part(self, c: u8) -> (Piece<'a>, Option<Piece<'a>>)
        ensures { Parted c self.entry result.0 result.1 }
    {
        let Some(n) = self.bytes.iter().position(|b| *b == c) else {
            return (self, None);
        };
        let front = Piece {
            bytes: &self.bytes[..n],
            line: self.line,
            byte: self.byte,
        };
        let rest = Piece {
            bytes: &self.bytes[n + 1..],
            line: self.line,
            byte: self.byte + n + 1,
        };
        (front, Some(rest))
    }
}
