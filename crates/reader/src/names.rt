// Names, compared with a text by place and length.
ghost use Rattle.std.specs.Prelude.{◌≡◌, ◌+◌, ◌≤◌, codes, length};
ghost use Rattle.format.specs.Format.{same, reserved_words};
ghost use Rattle.format.specs.Faults.{among};
ghost use Rattle.reader.specs.Names.{slice, Placed, number_among};

use format::parts::NamePlace;

// Whether a word may not name a job.
pub(crate) fn reserved(word: &[u8]) -> bool
    ensures { result ≡ among word.now reserved_words }
{
    matches!(word, b"start" | b"case" | b"cases" | b"table" | b"loop")
}

// Whether a word is the name of the job that each book has.
fn is_start(word: &[u8]) -> bool
    ensures { result ≡ same (codes "start") word.now }
{
    matches!(word, b"start")
}

// Whether a word stands at a place.
pub(crate) fn stands_at(text: &[u8], place: NamePlace, word: &[u8]) -> bool
    requires within { place.byte + place.length ≤ length text.now }
    ensures { result ≡ same (slice text.now place) word.now }
{
    &text[place.byte..place.byte + place.length] == word
}

// The number of the job that has this name.
pub(crate) fn job_number(text: &[u8], names: &[NamePlace], word: &[u8]) -> Option<usize>
    requires placed { Placed text.now names.now }
    ensures { result ≡ number_among text.now names.now word.now }
{
    if is_start(word) {
        return Some(0);
    }
    // `position` was tried, and the proof of its closure did not close.
    for (i, place) in names.iter().enumerate() {
        if stands_at(text, *place, word) {
            return Some(i + 1);
        }
    }
    None
}
