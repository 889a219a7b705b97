// The numbers of refusals. It is one line for each enum of them; a trait would be longer.
ghost use Rattle.std.specs.Prelude.{◌≡◌};
ghost use Rattle.book.specs.Plain.{number};

use crate::parts::Refusal;

impl Refusal {
    // The refusal's number.
    pub fn number(self) -> u8
        ensures { result ≡ number self }
    {
        self as u8
    }
}
