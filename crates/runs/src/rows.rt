// The minutes of one case, by job number: -1 for a job not done.
ghost use Rattle.std.specs.Prelude.{◌≡◌, ◌≤◌, [], length, Some, Decides, MatchOption};
ghost use Rattle.walks.specs.Rows.{natural, minutes_from, IsLeast, JobsBelow, FirstFrom};

use walks::parts::Telling;

// The minute, if there is one.
fn minute_of(shown: i32) -> Option<u32>
    ensures { result ≡ natural shown }
{
    u32::try_from(shown).ok()
}

// The least minute of the row from `from` on.
fn least_from(row: &[i32], from: u64) -> Option<u32>
    ensures { MatchOption result (minutes_from row.now from ≡ []) (IsLeast (minutes_from row.now from)) }
{
    row.iter()
        .copied()
        .filter_map(minute_of)
        .filter(|minute| u64::from(*minute) >= from)
        .min()
}

// Whether a job is due in this minute.
fn is_due(shown: i32, minute: u32) -> bool
    ensures { Decides result (natural shown ≡ Some minute) }
{
    minute_of(shown) == Some(minute)
}

// The set of the jobs due in this minute.
#[tactic(auto, using(walks::proofs::Scanned::jobs_more, walks::proofs::Scanned::jobs_same))]
fn due_in(row: &[i32], minute: u32) -> u32
    requires few { length row.now ≤ 20 }
    ensures { JobsBelow row.now minute (length row.now) result }
{
    // A `fold` would carry the set through its closure and be no shorter.
    let mut jobs = 0;
    for (j, shown) in row.iter().enumerate() {
        if is_due(*shown, minute) {
            jobs |= 1 << j;
        }
    }
    jobs
}

// The least minute from `from` on, with the jobs due in it.
pub(crate) fn first_from(row: &[i32], from: u64) -> Option<Telling>
    requires few { length row.now ≤ 20 }
    ensures { FirstFrom row.now from result }
{
    least_from(row, from).map(|minute| Telling {
        minute,
        jobs: due_in(row, minute),
    })
}
