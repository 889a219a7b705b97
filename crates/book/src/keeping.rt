// The book.
ghost use Rattle.book.specs.Plain.{plain};
ghost use Rattle.book.specs.Room.{Roomy};
ghost use Rattle.book.specs.Sound.{Sound};
ghost use Rattle.book.specs.Single.{sound_single};

use crate::parts::Table;

// The two lists, with room for all that they may ever hold, and sound at every time.
#[derive(Drop)]
pub struct Book {
    pub(crate) table: Table,
    ghost room: { Roomy table },
    ghost wellformed: { Sound (plain table) } by { sound_single (plain table) },
}
