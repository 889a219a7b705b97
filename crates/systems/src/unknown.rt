// The rules between two cases: what is not yet known must not tell them apart. They are collected in their order.
ghost use Rattle.std.specs.Prelude.{◌≡◌, ◌+◌, ◌<◌, [], ◌∷◌, ◌++◌, map, length};
ghost use Rattle.book.specs.Plain.{checks, cases};
ghost use Rattle.book.specs.Held.{held};
ghost use Rattle.rules.specs.Rows.{step_of, rule_of};
ghost use Rattle.grades.specs.Systems.{place, tells_apart, both_do, unknown_rule, unknown_between, unknown_from, unknown_rules};
ghost use Rattle.rules.specs.Tables.{Adds};

use crate::cases::RowTable;
use crate::holds::asking;
use book::keeping::Book;
use rules::rows::{Row, Step};

// The place of a job in a case.
fn place(book: &Book, case: u8, j: usize) -> u16
    requires case { case < cases (held book.now) }
    requires is { j < length (held book.now).jobs }
    ensures { result ≡ place (held book.now) case j }
{
    (usize::from(case) * book.jobs().len() + j) as u16
}

// A row with one alternative more.
fn with_step(row: Row, step: Step) -> Row
    requires room { row.count < 5 }
    ensures held { (rule_of result).held ≡ (rule_of row).held }
    ensures alternatives { (rule_of result).alternatives ≡ (rule_of row).alternatives ++ step_of step ∷ [] }
    ensures count { result.count ≡ row.count + 1 }
{
    let mut longer = row;
    longer.alternatives[usize::from(row.count)] = step;
    longer.count += 1;
    longer
}

// A case of a book, and a case that it may have to be told from.
#[derive(Clone, Copy)]
struct Pair<'a> {
    book: &'a Book,
    case: u8,
    other: u8,
    ghost mine: { case < cases (held book.now) },
    ghost others: { other < cases (held book.now) },
}

impl Pair<'_> {
    // Whether check `c` is done in the case, and the two cases differ on it.
    fn told_apart(&self, c: u8) -> bool
        requires is { c < checks (held self.now.book.now) }
        ensures { result ≡ tells_apart (held self.now.book.now) self.now.case self.now.other c }
    {
        (self.case >> c) % 2 != (self.other >> c) % 2
            && self.book.done(self.case, asking(self.book, c))
    }

    // Whether the two are different cases that both do a job.
    fn both_do(&self, j: usize) -> bool
        ensures { result ≡ both_do (held self.now.book.now) self.now.case self.now.other j }
    {
        self.case != self.other && self.book.done(self.case, j) && self.book.done(self.other, j)
    }

    // The row of job `j` in the case: by the same job in the other, or by a check that tells the two apart.
    fn row(&self, j: usize) -> Row
        requires is { j < length (held self.now.book.now).jobs }
        ensures { rule_of result ≡ unknown_rule (held self.now.book.now) self.now.case self.now.other j }
    {
        let first = Step {
            place: place(self.book, self.other, j),
            minutes: 0,
        };
        let mut row = Row::one(place(self.book, self.case, j), first);
        for c in 0..self.book.checks() {
            if self.told_apart(c) {
                let step = Step {
                    place: place(self.book, self.case, asking(self.book, c)),
                    minutes: 1,
                };
                row = with_step(row, step);
            }
        }
        row
    }

    // Adds the rules of the case by the other.
    fn add_rules(&self, out: &mut RowTable)
        ensures { Adds 8192 (map rule_of out.old) (unknown_between (held self.now.book.now) self.now.case self.now.other) (map rule_of out.new) }
    {
        for j in 0..self.book.jobs().len() {
            if self.both_do(j) {
                out.push(self.row(j));
            }
        }
    }
}

// Adds the rules of one case by every other.
fn add_from(book: &Book, case: u8, out: &mut RowTable)
    requires case { case < cases (held book.now) }
    ensures { Adds 8192 (map rule_of out.old) (unknown_from (held book.now) case) (map rule_of out.new) }
{
    for other in 0..book.cases() {
        Pair { book, case, other }.add_rules(out);
    }
}

// Adds the rules of every case by every other. Not inlined (see `dynamic_system`).
#[inline(never)]
pub(crate) fn add_unknown(book: &Book, out: &mut RowTable)
    ensures { Adds 8192 (map rule_of out.old) (unknown_rules (held book.now)) (map rule_of out.new) }
{
    for case in 0..book.cases() {
        add_from(book, case, out);
    }
}
