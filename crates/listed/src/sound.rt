// Whether rows are sound.
ghost use Rattle.std.specs.Prelude.{Decides};
ghost use Rattle.rules.specs.Rules.{Sound, SoundRule, SoundAlternative};
ghost use Rattle.rules.specs.Rows.{system_by, rule_of, step_of};

use rules::rows::{Row, Step};
use rules::stored::StoredRule;

// Whether an alternative goes by one of the places and asks no more than three days.
fn step_sound(places: usize, step: Step) -> bool
    ensures { Decides result (SoundAlternative places (step_of step)) }
{
    usize::from(step.place) < places && step.minutes >= -4320 && step.minutes <= 4320
}

// Whether a row's rule is sound.
fn row_sound(places: usize, row: Row) -> bool
    ensures { Decides result (SoundRule places (rule_of row)) }
{
    if usize::from(row.held) >= places || row.count == 0 {
        return false;
    }
    row.alternatives[..row.count()]
        .iter()
        .all(|step| step_sound(places, *step))
}

// Whether all that the rows mean is sound.
pub(crate) fn rows_sound(places: usize, rows: &[Row]) -> bool
    ensures { Decides result (Sound (system_by rule_of places rows.now)) }
{
    if places == 0 || places > 320 || rows.len() > 8192 {
        return false;
    }
    rows.iter().all(|row| row_sound(places, *row))
}
