// The holds of a book, collected in their order: one function for each kind of hold takes the book and the table; a struct of these two
// would only rename them. Tables are filled by a `for`, here and in the modules beside: `extend` would answer an error for a full table, and a full
// table is no error here.
ghost use Rattle.std.specs.Prelude.{◌≡◌, ◌<◌, pos, neg_ℤ, ◌≤ℤ◌};
ghost use Rattle.book.specs.Plain.{asking, job};
ghost use Rattle.book.specs.Held.{held};
ghost use Rattle.rules.specs.declared.parts.Origin.TheVariants.{Bound as BoundOrigin};
ghost use Rattle.grades.specs.Systems.{hold_of, start_hold, check_hold, bound_holds, start_holds, check_holds_of, check_holds, holds};
ghost use Rattle.rules.specs.Tables.{Adds};

use book::keeping::Book;
use book::parts::{Bound, Kind, Label};
use grades::holds::Hold;
use rules::parts::Origin;
use rules::table::RuleTable;

// Room for the holds of every book.
pub(crate) type HoldTable = RuleTable<Hold, 164>;

// A book with all its holds.
#[derive(Drop)]
pub(crate) struct BookHolds<'a> {
    pub(crate) book: &'a Book,
    pub(crate) all: HoldTable,
    ghost whole: { all ≡ holds (held book.now) },
}

impl<'a> BookHolds<'a> {
    // The holds of its bounds, then those by `start`, then those by the checks of labels.
    pub(crate) fn of(book: &'a Book) -> BookHolds<'a>
        ensures { result.book.now ≡ book.now }
    {
        let mut all = RuleTable::new();
        add_bounds(book, &mut all);
        add_starts(book, &mut all);
        add_checks(book, &mut all);
        BookHolds { book, all }
    }
}

// The job that is check `c` of the book, past the last where there is none: the definition of a plan's rules counts so, and an Option
// would be unwrapped wherever it is asked.
pub(crate) fn asking(book: &Book, c: u8) -> usize
    ensures { result ≡ asking (held book.now) c }
{
    book.check_job(c).unwrap_or(book.jobs().len())
}

// The hold of bound `i`: at least holds back the second job by the first, at most the first by the second.
fn bound_hold(bound: Bound, i: usize) -> Hold
    requires low { neg_ℤ (pos 4320) ≤ℤ bound.minutes }
    ensures { result ≡ hold_of bound.kind bound.first bound.second bound.minutes (BoundOrigin i) }
{
    let (held, by, minutes) = match bound.kind {
        Kind::Least => (bound.second, bound.first, bound.minutes),
        Kind::Most => (bound.first, bound.second, -bound.minutes),
    };
    Hold {
        held,
        by,
        minutes,
        origin: Origin::Bound(i),
    }
}

// The hold of a job by `start`.
fn start_hold(j: usize) -> Hold
    ensures { result ≡ start_hold j }
{
    Hold {
        held: j,
        by: 0,
        minutes: 0,
        origin: Origin::Start(j),
    }
}

// The hold of a job by check `c`, whose outcome is known one minute after it.
fn check_hold(book: &Book, j: usize, c: u8) -> Hold
    ensures { result ≡ check_hold (held book.now) j c }
{
    Hold {
        held: j,
        by: asking(book, c),
        minutes: 1,
        origin: Origin::Check(usize::from(c), j),
    }
}

// Adds the holds of the bounds.
fn add_bounds(book: &Book, out: &mut HoldTable)
    ensures { Adds 164 out.old (bound_holds (held book.now)) out.new }
{
    for (i, bound) in book.bounds().iter().enumerate() {
        out.push(bound_hold(*bound, i));
    }
}

// Adds the holds by `start`, one for every other job.
fn add_starts(book: &Book, out: &mut HoldTable)
    ensures { Adds 164 out.old (start_holds (held book.now)) out.new }
{
    // From 0 on, as the definition tests each job.
    for j in 0..book.jobs().len() {
        if j != 0 {
            out.push(start_hold(j));
        }
    }
}

// Adds the holds of job `j` by the checks of its label.
fn add_checks_of(book: &Book, j: usize, label: Label, out: &mut HoldTable)
    requires is { label ≡ (job (held book.now) j).label }
    ensures { Adds 164 out.old (check_holds_of (held book.now) j) out.new }
{
    for c in 0..book.checks() {
        if label.names(c) {
            out.push(check_hold(book, j, c));
        }
    }
}

// Adds the holds of all jobs by the checks of their labels.
fn add_checks(book: &Book, out: &mut HoldTable)
    ensures { Adds 164 out.old (check_holds (held book.now)) out.new }
{
    for (j, job) in book.jobs().iter().enumerate() {
        add_checks_of(book, j, job.label, out);
    }
}
