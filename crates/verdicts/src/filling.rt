// A table of minutes, spread over the minutes list case by case. The book and the lists stay parameters side by side, as in the verdicts.
ghost use Rattle.std.specs.Prelude.{◌≡◌, ℕ, ◌+◌, ◌*◌, ◌≤◌, length, negsuc, if◌then◌else◌};
ghost use Rattle.book.specs.Plain.{Case};
ghost use Rattle.book.specs.Held.{held};
ghost use Rattle.verdicts.specs.Filling.{CaseFilled, Filled};
ghost use Rattle.verdicts.specs.Searches.{part};
ghost use Rattle.verdicts.specs.Verdicts.{size};

use book::keeping::Book;

// What the minutes list has for a job: its minute, or -1 where it is not done, as a caller's list of numbers has it.
fn shown(done: bool, minute: i32) -> i32
    ensures { result ≡ (if done then minute else negsuc 0) }
{
    if done { minute } else { -1 }
}

// Writes the minutes of one case, which stand in `table` from `from` on, over the case's part of the minutes list: -1 for a job not done.
fn fill_case(book: &Book, case: u8, table: &[i32], from: usize, minutes: &mut [i32])
    requires within { from + length (held book.now).jobs ≤ length table.now }
    requires room { part (held book.now) case + length (held book.now).jobs ≤ length minutes.old }
    ensures { CaseFilled (held book.now) table.now from case minutes.old minutes.new }
{
    let jobs = book.jobs();
    let first = case as usize * jobs.len();
    // By index: after an iterator over a part of the list nothing is known of what was written.
    for (j, job) in jobs.iter().enumerate() {
        minutes[first + j] = shown(job.label.meets(case), table[from + j]);
    }
}

// Writes the minutes of every case; those of two cases stand `apart` places from each other in `table`: 0 where all cases have the same.
pub(crate) fn fill(book: &Book, table: &[i32], apart: usize, minutes: &mut [i32])
    requires near { apart ≤ 20 }
    requires within { (s : ℕ) → Case (held book.now) s → s * apart + length (held book.now).jobs ≤ length table.now }
    requires room { size (held book.now) ≤ length minutes.old }
    ensures { Filled (held book.now) table.now apart minutes.old minutes.new }
{
    for case in 0..book.cases() {
        fill_case(book, case, table, case as usize * apart, minutes);
    }
}
