// What holds of every plain book.
// A theorem is the contract of a function with no parameter that answers 0, a rule of the project.
ghost use Rattle.book.specs.Theorems.{ChecksDone, StaysSound};

// A job that is done in a case has every check of its label done there.
pub fn checks_done() -> u8
    ensures { ChecksDone }
{
    0
}

// Whatever calls a new plain book is fed, it keeps what every book keeps.
pub fn stays_sound() -> u8
    ensures { StaysSound }
{
    0
}
