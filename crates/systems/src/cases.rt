// The holds that are due in a case, and the rules of each case, collected in their order. A case is a number, since only two functions
// need that the book has it.
ghost use Rattle.std.specs.Prelude.{◌≡◌, ◌+◌, ◌<◌, ◌&&◌, map, pos, neg_ℤ, ◌≤ℤ◌};
ghost use Rattle.book.specs.Plain.{cases};
ghost use Rattle.book.specs.Done.{done};
ghost use Rattle.book.specs.Held.{held};
ghost use Rattle.rules.specs.Rows.{rule_of as row_rule};
ghost use Rattle.grades.specs.Systems.{each_below, holds, holds_in, rule_of, case_rules};
ghost use Rattle.rules.specs.Tables.{Adds};

use crate::holds::{BookHolds, HoldTable};
use book::keeping::Book;
use grades::holds::Hold;
use rules::rows::{Row, Step};
use rules::table::RuleTable;

// Room for the rules of every dynamic system.
pub(crate) type RowTable = RuleTable<Row, 8192>;

// Whether both jobs of a hold are done in a case.
fn due(book: &Book, case: u8, hold: Hold) -> bool
    ensures { result ≡ (done (held book.now) case hold.held && done (held book.now) case hold.by) }
{
    book.done(case, hold.held) && book.done(case, hold.by)
}

// The row of a hold in a case whose places begin at `base`.
fn case_row(hold: Hold, base: usize) -> Row
    requires held { base + hold.held < 320 }
    requires by { base + hold.by < 320 }
    requires low { neg_ℤ (pos 4320) ≤ℤ hold.minutes }
    requires high { hold.minutes ≤ℤ pos 4320 }
    ensures { row_rule result ≡ rule_of (λ j. base + j) hold }
{
    let step = Step {
        place: (base + hold.by) as u16,
        minutes: hold.minutes as i16,
    };
    Row::one((base + hold.held) as u16, step)
}

// The two loops put other things into other tables; what they share is `due`.
impl BookHolds<'_> {
    // The holds that are due in a case.
    pub(crate) fn due(&self, case: u8) -> HoldTable
        ensures { result ≡ holds_in (held self.now.book.now) case (holds (held self.now.book.now)) }
    {
        let mut out = RuleTable::new();
        for hold in self.all.rules() {
            if due(self.book, case, *hold) {
                out.push(*hold);
            }
        }
        out
    }

    // Adds the rules of one case.
    fn add_case(&self, case: u8, out: &mut RowTable)
        requires case { case < cases (held self.now.book.now) }
        ensures { Adds 8192 (map row_rule out.old) (case_rules (held self.now.book.now) case) (map row_rule out.new) }
    {
        let base = usize::from(case) * self.book.jobs().len();
        for hold in self.all.rules() {
            if due(self.book, case, *hold) {
                out.push(case_row(*hold, base));
            }
        }
    }

    // Adds the rules of each case. Not inlined (see `dynamic_system`).
    #[inline(never)]
    pub(crate) fn add_cases(&self, out: &mut RowTable)
        ensures { Adds 8192 (map row_rule out.old)
            (each_below (cases (held self.now.book.now)) (case_rules (held self.now.book.now))) (map row_rule out.new) }
    {
        for case in 0..self.book.cases() {
            self.add_case(case, out);
        }
    }
}
