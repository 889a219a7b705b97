// The search: rounds until the table stays, or the record shows that no table keeps the rules.
ghost use Rattle.std.specs.Prelude.{MatchResult};
ghost use Rattle.rules.specs.Loops.{Stuck};
ghost use Rattle.rules.specs.Search.{Good, AllKept};

use crate::loops::Barred;
use crate::marks::Marks;
use crate::tables::Table;
use rules::system::RuleSystem;

// Goes through the rules until the table keeps them all, or the rules that raised it show that none does: then some
// places bar each other.
pub(crate) fn search<T: RuleSystem>(system: &T) -> Result<Table, Barred>
    ensures { MatchResult result
        (λ t. Good (T.meaning system.now) 0 t.minutes t.by × AllKept (T.meaning system.now) t.minutes)
        (λ b. Stuck (T.meaning system.now) b.table.by b.place) }
{
    let mut table = Table::new();
    let mut marks = Marks::none();
    while table.round(system) {
        marks.mark_above_zero(&table);
        marks.peel(system, &table);
        if let Some(place) = marks.first() {
            return Err(Barred { table, place });
        }
    }
    Ok(table)
}
