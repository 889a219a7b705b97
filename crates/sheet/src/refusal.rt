// Why no sheet is written.
ghost use Rattle.std.specs.Prelude.{◌≡◌};
ghost use Rattle.sheet.specs.declared.refusal.Refusal.TheVariants.{NoMemory as Memoryless};

use std::alloc::AllocError;

// The output is under 8,192 bytes, or there is no memory for a book and a sheet.
#[derive(Clone, Copy, Debug, PartialEq, Eq)]
pub enum Refusal {
    OutputShort,
    NoMemory,
}

impl From<AllocError> for Refusal {
    ghost from_gives = { λ e r. r ≡ Memoryless };

    fn from(_e: AllocError) -> Refusal {
        Refusal::NoMemory
    }
}
