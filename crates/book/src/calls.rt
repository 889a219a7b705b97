// The calls of a book.
ghost use Rattle.std.specs.Prelude.{◌≡◌, IfOk};
ghost use Rattle.book.specs.Plain.{new_book, add_job, add_check, add_bound, withdraw, checks, cases};
ghost use Rattle.book.specs.Held.{held};
ghost use Rattle.book.specs.Done.{done, check_job};

use crate::keeping::Book;
use crate::parts::{Bound, Job, Label, Refusal, Table};
use std::alloc::{AllocError, Global};

impl Book {
    // A book that holds `start` alone. This is the one call that can want memory.
    pub fn new(heap: Global) -> Result<Book, AllocError>
        ensures { IfOk result (λ b. held b ≡ new_book) }
    {
        let mut jobs = Vec::with_capacity(heap, 20)?;
        let bounds = Vec::with_capacity(heap, 64)?;
        let label = Label::default();
        jobs.push_reserved(Job { label, check: None });
        Ok(Book {
            table: Table { jobs, bounds },
        })
    }

    // Adds a job and answers its number, or refuses and alters nothing.
    pub fn add_job(&mut self, label: Label) -> Result<usize, Refusal>
        ensures answer { result ≡ (add_job (held self.old) label).answer }
        ensures after { held self.new ≡ (add_job (held self.old) label).after }
    {
        self.table.add_job(label)
    }

    // Adds a check and answers its job's number, or refuses and alters nothing.
    pub fn add_check(&mut self, label: Label) -> Result<usize, Refusal>
        ensures answer { result ≡ (add_check (held self.old) label).answer }
        ensures after { held self.new ≡ (add_check (held self.old) label).after }
    {
        self.table.add_check(label)
    }

    // Adds a bound and answers its number, or refuses and alters nothing.
    pub fn add_bound(&mut self, bound: Bound) -> Result<usize, Refusal>
        ensures answer { result ≡ (add_bound (held self.old) bound).answer }
        ensures after { held self.new ≡ (add_bound (held self.old) bound).after }
    {
        self.table.add_bound(bound)
    }

    // Withdraws bound n, or refuses and alters nothing; later bounds move down by one.
    pub fn withdraw(&mut self, n: usize) -> Result<(), Refusal>
        ensures answer { result ≡ (withdraw (held self.old) n).answer }
        ensures after { held self.new ≡ (withdraw (held self.old) n).after }
    {
        self.table.withdraw(n)
    }

    // All jobs, in order.
    pub fn jobs(&self) -> &[Job]
        ensures { result.now ≡ (held self.now).jobs }
    {
        self.table.jobs.as_slice()
    }

    // All bounds, in order.
    pub fn bounds(&self) -> &[Bound]
        ensures { result.now ≡ (held self.now).bounds }
    {
        self.table.bounds.as_slice()
    }

    // How many of the jobs are checks.
    pub fn checks(&self) -> u8
        ensures { result ≡ checks (held self.now) }
    {
        self.table.checks()
    }

    // How many cases there are.
    pub fn cases(&self) -> u8
        ensures { result ≡ cases (held self.now) }
    {
        1 << self.checks()
    }

    // The job that is check c, if there is one.
    pub fn check_job(&self, c: u8) -> Option<usize>
        ensures { result ≡ check_job (held self.now) c }
    {
        self.table.check_job(c)
    }

    // Whether a job is done in a case: whether the case meets its label, which is empty past the last job.
    pub fn done(&self, case: u8, j: usize) -> bool
        ensures { result ≡ done (held self.now) case j }
    {
        self.table.label(j).meets(case)
    }

    // Makes this book hold what another holds, in the room that it has: a clone would want memory.
    pub fn copy_from(&mut self, other: &Book)
        ensures { held self.new ≡ held other.now }
    {
        self.table.copy_from(&other.table);
    }
}
