// Faults and their places.
ghost use Rattle.std.specs.Prelude.{◌≡◌};
ghost use Rattle.format.specs.Faults.{fault_at};
ghost use Rattle.reader.specs.declared.place.Unread.TheVariants.{NoMemory as Memoryless, Fault as Faulty};

pub use crate::piece::Piece as Line;
use format::parts::{Fault, FileFault, Reason};
use std::alloc::AllocError;

// Why a text is not read: a fault in it, or no memory for a new book. An error of two causes, so no Option: `None` would name neither.
#[derive(Clone, Copy)]
pub enum Unread {
    Fault(Fault),
    NoMemory,
}

impl From<Fault> for Unread {
    ghost from_gives = { λ e r. r ≡ Faulty e };

    fn from(e: Fault) -> Unread {
        Unread::Fault(e)
    }
}

impl From<AllocError> for Unread {
    ghost from_gives = { λ e r. r ≡ Memoryless };

    fn from(_e: AllocError) -> Unread {
        Unread::NoMemory
    }
}

// A fault of the file on a line at a byte.
pub(crate) fn fault(what: FileFault, line: usize, byte: usize) -> Fault
    ensures { result ≡ fault_at what line byte }
{
    Fault {
        reason: Reason::File(what),
        line,
        byte,
    }
}
