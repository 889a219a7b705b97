// What lines say, from their words.
ghost use Rattle.std.specs.Prelude.{◌≡◌, ◌<◌, length, Ok, Err, IfSome, MatchResult};
ghost use Rattle.book.specs.Held.{held};
ghost use Rattle.book.specs.Plain.{empty_label};
ghost use Rattle.format.specs.Format.{job_number, check_number};
ghost use Rattle.format.specs.Entered.{wanting as wanted};
ghost use Rattle.format.specs.Faults.{work_of, kind_of, sign_of};
ghost use Rattle.reader.specs.Says.{head_of, knows, count_at, new_name_at, job_at, want_at, labelled};
ghost use Rattle.reader.specs.Says.{job_line_at, bound_line_at, JobSaid, BoundSaid};

use crate::names::{job_number, reserved};
use crate::piece::Piece;
use crate::register::{Entry, Register};
use crate::scan::{is_name, minutes, natural};
use crate::words::Words;
use book::parts::{Bound, Kind, Label};
use format::parts::{Fault, FileFault, NamePlace, Sign, Work};

// The number after a line's first word, which must be the key.
pub(crate) fn count(line: Piece, key: &[u8]) -> Result<usize, Fault>
    ensures { result ≡ count_at key.now line.entry }
{
    let mut words = line.words();
    let (Some(first), Some(number), None) = (words.next(), words.next(), words.next()) else {
        return Err(line.fault(FileFault::WrongLine));
    };
    if first.bytes != key {
        return Err(line.fault(FileFault::WrongLine));
    }
    let n = natural(number.bytes, 2).ok_or(number.fault(FileFault::NotANumber))?;
    Ok(n as usize)
}

// What a line can be: the count of jobs, a job or a check, the count of bounds, a bound, or no line of a plan.
#[derive(Clone, Copy)]
pub enum Head {
    JobCount,
    OneJob,
    BoundCount,
    OneBound,
    Unknown,
}

// What a line is, by its first word. A match on the words was tried, and its proof did not close.
pub(crate) fn head_of(word: &[u8]) -> Head
    ensures { result ≡ head_of word.now }
{
    if word == b"jobs".as_slice() {
        Head::JobCount
    } else if word == b"bounds".as_slice() {
        Head::BoundCount
    } else if work_of(word).is_some() {
        Head::OneJob
    } else if kind_of(word).is_some() {
        Head::OneBound
    } else {
        Head::Unknown
    }
}

// What a word enters. One function for this table and the two below would be longer, with a table as its argument.
#[tactic(auto, using(std::proofs::lemmas::Grind::common_steps, crate::proofs::Pieces::not_same))]
fn work_of(word: &[u8]) -> Option<Work>
    ensures { result ≡ work_of word.now }
{
    match word {
        b"job" => Some(Work::Job),
        b"check" => Some(Work::Check),
        _ => None,
    }
}

// What kind of bound a word says.
#[tactic(auto, using(std::proofs::lemmas::Grind::common_steps, crate::proofs::Pieces::not_same))]
fn kind_of(word: &[u8]) -> Option<Kind>
    ensures { result ≡ kind_of word.now }
{
    match word {
        b"least" => Some(Kind::Least),
        b"most" => Some(Kind::Most),
        _ => None,
    }
}

// The sign that a byte is.
fn sign_of(byte: u8) -> Option<Sign>
    ensures { result ≡ sign_of byte }
{
    match byte {
        b'+' => Some(Sign::Plus),
        b'-' => Some(Sign::Minus),
        _ => None,
    }
}

// A label with one more check wanted.
fn wanting(label: Label, sign: Sign, c: usize) -> Label
    requires few { c < 8 }
    ensures { result ≡ wanted label sign c }
{
    let bit = 1u8 << c;
    match sign {
        Sign::Plus => Label {
            yes: label.yes | bit,
            no: label.no,
        },
        Sign::Minus => Label {
            yes: label.yes,
            no: label.no | bit,
        },
    }
}

impl Register<'_> {
    // The number of the job that has this name.
    fn find_job(&self, name: &[u8]) -> Option<usize>
        ensures value { result ≡ job_number (knows self.now) name.now }
        ensures within { IfSome result (λ j. j < length (held self.now.book.now).jobs) }
    {
        let count = self.book.jobs().len() - 1;
        job_number(self.text, &self.names[..count], name)
    }

    // The number of the check that has this name.
    fn find_check(&self, name: &[u8]) -> Option<usize>
        ensures value { result ≡ check_number (knows self.now) name.now }
        ensures few { IfSome result (λ c. c < 8) }
    {
        let job = self.find_job(name)?;
        Some(usize::from(self.book.jobs()[job].check?))
    }

    // Judges a new name.
    fn new_name(&self, word: Piece) -> Result<(), Fault>
        ensures { MatchResult result
            (λ _. new_name_at (knows self.now) word.entry ≡ Ok word.entry.bytes.now)
            (λ e. new_name_at (knows self.now) word.entry ≡ Err e) }
    {
        if !is_name(word.bytes) {
            return Err(word.fault(FileFault::BadName));
        }
        if self.find_job(word.bytes).is_some() {
            return Err(word.fault(FileFault::NameTaken));
        }
        if reserved(word.bytes) {
            return Err(word.fault(FileFault::NameReserved));
        }
        Ok(())
    }

    // The job that a word names.
    fn job_named(&self, word: Piece) -> Result<usize, Fault>
        ensures { result ≡ job_at (knows self.now) word.entry }
    {
        if !is_name(word.bytes) {
            return Err(word.fault(FileFault::BadName));
        }
        self.find_job(word.bytes)
            .ok_or(word.fault(FileFault::UnknownName))
    }

    // A label with one more label word taken in.
    fn want(&self, label: Label, word: Piece) -> Result<Label, Fault>
        ensures { result ≡ want_at (knows self.now) word.entry label }
    {
        let Some((first, name)) = word.bytes.split_first() else {
            return Err(word.fault(FileFault::BadName));
        };
        let sign = sign_of(*first).ok_or(word.fault(FileFault::BadName))?;
        if !is_name(name) {
            return Err(word.fault(FileFault::BadName));
        }
        let c = self
            .find_check(name)
            .ok_or(word.fault(FileFault::UnknownName))?;
        Ok(wanting(label, sign, c))
    }

    // The label that the words left of a line give.
    fn label(&self, words: Words) -> Result<Label, Fault>
        ensures { result ≡ labelled empty_label (knows self.now) words.entry.rest }
    {
        let mut label = Label { yes: 0, no: 0 };
        for word in words {
            label = self.want(label, word)?;
        }
        Ok(label)
    }

    // What a line of the jobs section enters.
    pub(crate) fn entry(&self, line: Piece) -> Result<Entry, Fault>
        ensures { MatchResult result
            (JobSaid (knows self.now) line.entry)
            (λ e. job_line_at (knows self.now) line.entry ≡ Err e) }
    {
        let mut words = line.words();
        let (Some(first), Some(name)) = (words.next(), words.next()) else {
            return Err(line.fault(FileFault::WrongLine));
        };
        let work = work_of(first.bytes).ok_or(line.fault(FileFault::WrongLine))?;
        self.new_name(name)?;
        let label = self.label(words)?;
        Ok(Entry {
            work,
            name: NamePlace {
                byte: name.byte,
                length: name.bytes.len(),
            },
            label,
        })
    }

    // The bound that a line of the bounds section says.
    pub(crate) fn bound(&self, line: Piece) -> Result<Bound, Fault>
        ensures { MatchResult result
            (BoundSaid (knows self.now) line.entry)
            (λ e. bound_line_at (knows self.now) line.entry ≡ Err e) }
    {
        let mut words = line.words();
        let (Some(key), Some(first), Some(second), Some(number), None) = (
            words.next(),
            words.next(),
            words.next(),
            words.next(),
            words.next(),
        ) else {
            return Err(line.fault(FileFault::WrongLine));
        };
        let kind = kind_of(key.bytes).ok_or(line.fault(FileFault::WrongLine))?;
        let first = self.job_named(first)?;
        let second = self.job_named(second)?;
        let minutes = minutes(number.bytes).ok_or(number.fault(FileFault::NotANumber))?;
        Ok(Bound {
            kind,
            first,
            second,
            minutes,
        })
    }
}
