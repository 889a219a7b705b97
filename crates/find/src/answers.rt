// What the search answers: a no is an answer and no error, and each answer has a name that says it.
ghost use Rattle.std.specs.Prelude.{◌≡◌};
ghost use Rattle.find.specs.Answers.{number};

// A table keeps all rules, or none does.
#[derive(Clone, Copy, Debug, PartialEq, Eq)]
pub enum Found {
    Table,
    NoTable,
}

// A table keeps all rules, or none does: then so many rules are a loop.
#[derive(Clone, Copy, Debug, PartialEq, Eq)]
pub enum Explained {
    Table,
    Loop(usize),
}

// Why there was no search, each by its number.
#[derive(Clone, Copy, Debug, PartialEq, Eq)]
pub enum Refusal {
    // There are more places than minutes to write.
    MinutesShort = 12,
    // There are more places than origins to write.
    LoopShort = 13,
}

impl Refusal {
    // The number by which a refusal is known: one line for each such enum, since a trait would be longer.
    pub fn number(self) -> u8
        ensures { result ≡ number self }
    {
        self as u8
    }
}
