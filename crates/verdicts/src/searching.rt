// The searches of the rules of a book: strong, weak for one case, and dynamic. The book and the lists stay parameters, as in the verdicts.
ghost use Rattle.std.specs.Prelude.{◌≤◌, length};
ghost use Rattle.book.specs.Held.{held};
ghost use Rattle.find.specs.Answers.{Finds};
ghost use Rattle.grades.specs.Systems.{dynamic_system};
ghost use Rattle.verdicts.specs.Searches.{part, StrongSearch, SearchFrom, CaseSearch};

use book::keeping::Book;
use find::{Explained, Found, Refusal, find, find_or_loop};
use rules::parts::Origin;
use rules::system::{RuleSystem, WithOrigins};
use systems::{dynamic_system, strong_system, weak_system};

// Searches the strong rules of a book.
pub(crate) fn search_strong(
    book: &Book,
    table: &mut [i32],
    loops: &mut [Origin],
) -> Result<Explained, Refusal>
    ensures { StrongSearch (held book.now) table.old table.new loops.old loops.new result }
{
    find_or_loop(&strong_system(book), table, loops)
}

// Searches the rules of a system, and writes its table over the numbers of `table` from `from` on.
fn search_from<T: WithOrigins>(
    system: &T,
    from: usize,
    table: &mut [i32],
    loops: &mut [Origin],
) -> Result<Explained, Refusal>
    requires within { from ≤ length table.old }
    ensures { SearchFrom (T.meaning system.now) (T.origins system.now) from
        table.old table.new loops.old loops.new result }
{
    find_or_loop(system, &mut table[from..], loops)
}

// Searches the weak rules of a case, and writes their table over the case's part of `table`.
pub(crate) fn search_case(
    book: &Book,
    case: u8,
    table: &mut [i32],
    loops: &mut [Origin],
) -> Result<Explained, Refusal>
    requires within { part (held book.now) case ≤ length table.old }
    ensures { CaseSearch (held book.now) case table.old table.new loops.old loops.new result }
{
    let from = usize::from(case) * book.jobs().len();
    search_from(&weak_system(book, case), from, table, loops)
}

// Searches the dynamic rules of a book.
pub(crate) fn search_dynamic(book: &Book, table: &mut [i32]) -> Result<Found, Refusal>
    ensures { Finds (dynamic_system (held book.now)) table.old table.new result }
{
    find(&dynamic_system(book), table)
}
