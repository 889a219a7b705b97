// A list of rows, made into a rule system.
ghost use Rattle.std.specs.Prelude.{◌≡◌, ◌≤◌, length, MatchOption};
ghost use Rattle.rules.specs.Rules.{Sound};
ghost use Rattle.rules.specs.Rows.{system_by, rule_of};
ghost use Rattle.listed.specs.Numbered.{with_numbers};

use crate::numbered::Numbered;
use crate::sound::rows_sound;
use crate::system::Listed;
use rules::collected::Collected;
use rules::rows::Row;
use rules::table::RuleTable;

// A table of these rows with their numbers, filled by a `for`: `extend` answers an error for a table that is full.
fn numbered(rows: &[Row]) -> RuleTable<Numbered, 8192>
    requires few { length rows.now ≤ 8192 }
    ensures { result ≡ with_numbers 0 rows.now }
{
    let mut table = RuleTable::new();
    for (number, row) in rows.iter().enumerate() {
        let number = number as u16;
        table.push(Numbered { row: *row, number });
    }
    table
}

// The rule system of these rows, where they are sound. Each rule's origin is a bound of its own number.
pub fn listed(places: usize, rows: &[Row]) -> Option<Listed>
    ensures { MatchOption result (Sound (system_by rule_of places rows.now) → ⊥)
        (λ x. (x.system.places ≡ places) × (x.system.table ≡ with_numbers 0 rows.now)) }
{
    if !rows_sound(places, rows) {
        return None;
    }
    let table = numbered(rows);
    Some(Listed {
        system: Collected { places, table },
    })
}
