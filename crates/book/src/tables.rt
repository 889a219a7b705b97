// The two lists of a book: what is asked of them, and how they change.
ghost use Rattle.std.specs.Prelude.{◌≡◌, ◌&&◌, [], ◌∷◌, nat_le, unsigned_abs};
ghost use Rattle.std.specs.Result.{result_err};
ghost use Rattle.book.specs.Labels.{names};
ghost use Rattle.book.specs.Plain.{plain, checks, asking, job, lacks, part_missing, row, first_row};
ghost use Rattle.book.specs.Plain.{names_unknown, both_ways};
ghost use Rattle.book.specs.Plain.{job_refusal, check_refusal, bound_refusal};
ghost use Rattle.book.specs.declared.parts.Refusal.TheVariants.{UnknownCheck, BothWays, PartMissing};
ghost use Rattle.book.specs.Plain.{add_job, add_check, add_bound, withdraw};
ghost use Rattle.book.specs.Done.{check_job};
ghost use Rattle.book.specs.Room.{Roomy};
ghost use Rattle.book.specs.Sound.{Sound};

use crate::copying::refill;
use crate::parts::{Bound, Job, Label, Refusal, Table};

// Whether minutes lie beyond three days, either way.
fn beyond(minutes: i32) -> bool
    ensures { result ≡ nat_le 4321 (unsigned_abs minutes) }
{
    minutes.unsigned_abs() > 4320
}

// A rule of the project keeps what is well formed in the type over the plain struct: Book holds that its table is sound and has
// room, so the methods here require it.
impl Table {
    // How many of the jobs are checks.
    pub(crate) fn checks(&self) -> u8
        requires sound { Sound (plain self.now) }
        ensures { result ≡ checks (plain self.now) }
    {
        self.jobs.iter().filter(|job| job.check.is_some()).count() as u8
    }

    // The number of the job that is check c, if there is one.
    pub(crate) fn check_job(&self, c: u8) -> Option<usize>
        ensures { result ≡ check_job (plain self.now) c }
    {
        self.jobs.iter().position(|job| job.check == Some(c))
    }

    // The label of a job, and the empty label past the last job.
    pub(crate) fn label(&self, j: usize) -> Label
        ensures { result ≡ (job (plain self.now) j).label }
    {
        self.jobs.get(j).map_or(Label::default(), |job| job.label)
    }

    // The label of check c, and the empty label where there is no such check.
    fn check_label(&self, c: u8) -> Label
        ensures { result ≡ (job (plain self.now) (asking (plain self.now) c)).label }
    {
        self.check_job(c)
            .map_or(Label::default(), |j| self.label(j))
    }

    // Whether the label names check c and lacks part of its label.
    fn lacks_check(&self, label: Label, c: u8) -> bool
        ensures { result ≡ (names label c && lacks label (job (plain self.now) (asking (plain self.now) c)).label) }
    {
        label.names(c) && label.lacks(self.check_label(c))
    }

    // Whether the label lacks part of the label of a check that it names.
    fn lacks_any(&self, label: Label) -> bool
        ensures { result ≡ part_missing (plain self.now) label }
    {
        // `any` over the checks was tried, and its proof did not close.
        for c in 0..8 {
            if self.lacks_check(label, c) {
                return true;
            }
        }
        false
    }

    // Refuses the label of a new job that is not taken.
    fn allow_label(&self, label: Label) -> Result<(), Refusal>
        requires sound { Sound (plain self.now) }
        ensures { result_err result ≡ first_row (
            row (names_unknown (plain self.now) label) UnknownCheck
            ∷ row (both_ways label) BothWays
            ∷ row (part_missing (plain self.now) label) PartMissing
            ∷ []
            ) }
    {
        if label.names_from(self.checks()) {
            return Err(Refusal::UnknownCheck);
        }
        if label.wants_both() {
            return Err(Refusal::BothWays);
        }
        if self.lacks_any(label) {
            return Err(Refusal::PartMissing);
        }
        Ok(())
    }

    // Refuses a new job that is not taken.
    fn allow_job(&self, label: Label) -> Result<(), Refusal>
        requires sound { Sound (plain self.now) }
        ensures { result_err result ≡ job_refusal (plain self.now) label }
    {
        if self.jobs.len() >= 20 {
            return Err(Refusal::JobsFull);
        }
        self.allow_label(label)
    }

    // Refuses a new check that is not taken.
    fn allow_check(&self, label: Label) -> Result<(), Refusal>
        requires sound { Sound (plain self.now) }
        ensures { result_err result ≡ check_refusal (plain self.now) label }
    {
        if self.jobs.len() >= 20 {
            return Err(Refusal::JobsFull);
        }
        if self.checks() >= 4 {
            return Err(Refusal::ChecksFull);
        }
        self.allow_label(label)
    }

    // Refuses a new bound that is not taken.
    fn allow_bound(&self, bound: Bound) -> Result<(), Refusal>
        ensures { result_err result ≡ bound_refusal (plain self.now) bound }
    {
        let jobs = self.jobs.len();
        if bound.first >= jobs || bound.second >= jobs {
            return Err(Refusal::UnknownJob);
        }
        if beyond(bound.minutes) {
            return Err(Refusal::MinutesBeyond);
        }
        if bound.first == bound.second {
            return Err(Refusal::SameJob);
        }
        if self.label(bound.first).excludes(self.label(bound.second)) {
            return Err(Refusal::Exclusive);
        }
        if self.bounds.len() >= 64 {
            return Err(Refusal::BoundsFull);
        }
        Ok(())
    }

    // Adds a job and answers its number, or refuses and alters nothing. A check is added alike, but for one refusal and its number: one
    // function for both would be handed both.
    pub(crate) fn add_job(&mut self, label: Label) -> Result<usize, Refusal>
        requires sound { Sound (plain self.old) }
        requires room { Roomy self.old }
        ensures answer { result ≡ (add_job (plain self.old) label).answer }
        ensures after { plain self.new ≡ (add_job (plain self.old) label).after }
        ensures room { Roomy self.new }
    {
        self.allow_job(label)?;
        let n = self.jobs.len();
        self.jobs.push_reserved(Job { label, check: None });
        Ok(n)
    }

    // Adds a check and answers its job's number, or refuses and alters nothing.
    pub(crate) fn add_check(&mut self, label: Label) -> Result<usize, Refusal>
        requires sound { Sound (plain self.old) }
        requires room { Roomy self.old }
        ensures answer { result ≡ (add_check (plain self.old) label).answer }
        ensures after { plain self.new ≡ (add_check (plain self.old) label).after }
        ensures room { Roomy self.new }
    {
        self.allow_check(label)?;
        let n = self.jobs.len();
        let check = Some(self.checks());
        self.jobs.push_reserved(Job { label, check });
        Ok(n)
    }

    // Adds a bound and answers its number, or refuses and alters nothing.
    pub(crate) fn add_bound(&mut self, bound: Bound) -> Result<usize, Refusal>
        requires room { Roomy self.old }
        ensures answer { result ≡ (add_bound (plain self.old) bound).answer }
        ensures after { plain self.new ≡ (add_bound (plain self.old) bound).after }
        ensures room { Roomy self.new }
    {
        self.allow_bound(bound)?;
        let n = self.bounds.len();
        self.bounds.push_reserved(bound);
        Ok(n)
    }

    // Withdraws bound n, or refuses and alters nothing.
    pub(crate) fn withdraw(&mut self, n: usize) -> Result<(), Refusal>
        requires room { Roomy self.old }
        ensures answer { result ≡ (withdraw (plain self.old) n).answer }
        ensures after { plain self.new ≡ (withdraw (plain self.old) n).after }
        ensures room { Roomy self.new }
    {
        if n >= self.bounds.len() {
            return Err(Refusal::UnknownBound);
        }
        let _ = self.bounds.remove(n);
        Ok(())
    }

    // Makes the two lists hold what those of another table hold, in the room that they have: a clone would want memory.
    pub(crate) fn copy_from(&mut self, other: &Table)
        requires sound { Sound (plain other.now) }
        requires room { Roomy self.old }
        ensures same { plain self.new ≡ plain other.now }
        ensures room { Roomy self.new }
    {
        refill(&mut self.jobs, other.jobs.as_slice());
        refill(&mut self.bounds, other.bounds.as_slice());
    }
}
