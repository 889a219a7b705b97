// The names of a plan's jobs.
ghost use Rattle.std.specs.Prelude.{◌≡◌, ◌≤◌, ◌↔◌, IsTrue, IsSome, IfSome, length};
ghost use Rattle.book.specs.Held.{held};
ghost use Rattle.format.specs.Names.{NameIn, AllNamesIn, Enough, name_of};

use crate::parts::NamePlace;
use book::keeping::Book;

// A text, and the places of the names in it: each stands in the text, and has at most 8 letters.
#[derive(Clone, Copy)]
pub struct Names<'a> {
    pub text: &'a [u8],
    pub places: &'a [NamePlace],
    ghost all_in: { AllNamesIn text.now places.now },
}

// Whether a name stands in the text, and has at most 8 letters.
fn is_in(place: NamePlace, text: &[u8]) -> bool
    ensures { IsTrue result ↔ NameIn text.now place }
{
    place.length <= 8 && place.byte <= text.len() && place.length <= text.len() - place.byte
}

impl<'a> Names<'a> {
    ghost use Rattle.format.specs.Named.{name};

    // The names at these places of a text, if they all stand in it and are short.
    pub fn new(text: &'a [u8], places: &'a [NamePlace]) -> Option<Names<'a>>
        ensures exactly { IsSome result ↔ AllNamesIn text.now places.now }
        ensures names { IfSome result (λ names. name names ≡ name_of text.now places.now) }
        ensures places { IfSome result (λ names. names.places.now ≡ places.now) }
    {
        if places.iter().all(|place| is_in(*place, text)) {
            Some(Names { text, places })
        } else {
            None
        }
    }

    // The name of a job: `start` for job 0, which has none in the text, and nothing past the last, so that a line can be put without a test.
    pub fn name(self, job: usize) -> &'a [u8]
        ensures name { result.now ≡ name self.entry job }
        ensures short { length result.now ≤ 8 }
    {
        if job == 0 {
            return b"start";
        }
        match self.places.get(job - 1) {
            Some(place) => &self.text[place.byte..place.byte + place.length],
            None => b"",
        }
    }
}

// A plan as it was read: its book, and the names of its jobs, enough for all of them.
#[derive(Clone, Copy)]
pub struct Plan<'a> {
    pub book: &'a Book,
    pub names: Names<'a>,
    ghost enough: { Enough names.places.now (length (held book.now).jobs) },
}
