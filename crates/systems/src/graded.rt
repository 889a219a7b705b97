// The systems of the three grades.
ghost use Rattle.std.specs.Prelude.{◌≡◌, ◌*◌, length};
ghost use Rattle.book.specs.Plain.{cases};
ghost use Rattle.book.specs.Held.{held};
ghost use Rattle.rules.specs.Rows.{system_by, rule_of as row_rule};
ghost use Rattle.grades.specs.Systems.{rule_of, origins_of};
ghost use Rattle.grades.specs.Systems.{strong_system, strong_origins, weak_system, weak_origins, dynamic_system};

use crate::holds::BookHolds;
use crate::unknown::add_unknown;
use book::keeping::Book;
use grades::holds::Hold;
use rules::collected::Collected;
use rules::rows::Row;
use rules::table::RuleTable;

// A place for each job, and a rule for each hold.
pub type HoldSystem = Collected<Hold, 164>;

// A place for each case and job, and rules that may have several alternatives.
pub type RowSystem = Collected<Row, 8192>;

// The strong system of a book: one minute for each job in all cases.
pub fn strong_system(book: &Book) -> HoldSystem
    ensures meaning { system_by (rule_of (λ j. j)) result.places result.table ≡ strong_system (held book.now) }
    ensures origins { origins_of result.table ≡ strong_origins (held book.now) }
{
    let BookHolds { book: _, all } = BookHolds::of(book);
    Collected {
        places: book.jobs().len(),
        table: all,
    }
}

// The weak system of a book in a case.
pub fn weak_system(book: &Book, case: u8) -> HoldSystem
    ensures meaning { system_by (rule_of (λ j. j)) result.places result.table ≡ weak_system (held book.now) case }
    ensures origins { origins_of result.table ≡ weak_origins (held book.now) case }
{
    let table = BookHolds::of(book).due(case);
    Collected {
        places: book.jobs().len(),
        table,
    }
}

// How many places a dynamic system has: one for each case and job. Not inlined (see `dynamic_system`).
#[inline(never)]
fn case_places(book: &Book) -> usize
    ensures { result ≡ cases (held book.now) * length (held book.now).jobs }
{
    usize::from(book.cases()) * book.jobs().len()
}

// The dynamic system of a book. What loops here is not inlined: beside a loop the compiler keeps, clears and copies three tables of 8,192
// rows where it needs one.
pub fn dynamic_system(book: &Book) -> RowSystem
    ensures { system_by row_rule result.places result.table ≡ dynamic_system (held book.now) }
{
    let mut table = RuleTable::new();
    BookHolds::of(book).add_cases(&mut table);
    add_unknown(book, &mut table);
    Collected {
        places: case_places(book),
        table,
    }
}
