// The least table, written over a caller's numbers. It differs from the search that explains a no in its answer and in one more list, and
// what the two share is one call each.
ghost use Rattle.find.specs.Answers.{Finds};

use crate::answers::{Found, Refusal};
use crate::searching::search;
use rules::system::RuleSystem;

// Writes the least table that keeps every rule over the first of `minutes`, or says that there is none.
pub fn find<T: RuleSystem>(t: &T, minutes: &mut [i32]) -> Result<Found, Refusal>
    ensures { Finds (T.meaning t.now) minutes.old minutes.new result }
{
    let n = t.places();
    if minutes.len() < n {
        return Err(Refusal::MinutesShort);
    }
    match search(t) {
        Ok(table) => {
            table.write_out(n, minutes);
            Ok(Found::Table)
        }
        Err(_) => Ok(Found::NoTable),
    }
}
