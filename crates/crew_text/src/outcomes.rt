// The outcomes of checks, as words.
ghost use Rattle.std.specs.Prelude.{◌≡◌, ◌<◌, length, Err};

use std::alloc::{AllocError, Global};

// Why words say no outcomes.
pub(crate) enum Unsaid {
    TooMany,
    NeitherYesNorNo,
    NoMemory(AllocError),
}

impl From<AllocError> for Unsaid {
    fn from(e: AllocError) -> Unsaid {
        Unsaid::NoMemory(e)
    }
}

// The outcome that a word says.
fn outcome(word: &str) -> Result<bool, Unsaid> {
    match word {
        "yes" => Ok(true),
        "no" => Ok(false),
        _ => Err(Unsaid::NeitherYesNorNo),
    }
}

// The outcomes that words say, one for each check that a plan can have.
pub(crate) fn outcomes(heap: Global, words: &[String]) -> Result<Vec<bool>, Unsaid>
    ensures { 4 < length words.now → result ≡ Err Unsaid.TooMany }
{
    if words.len() > 4 {
        return Err(Unsaid::TooMany);
    }
    words
        .iter()
        .map(|word| outcome(word.as_str()))
        .try_collect(heap)
}
