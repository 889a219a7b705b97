// What a plan book is made of.

// What a job waits to hear: bit k of `yes` is set where check k must say yes, and bit k of `no` where it must say no. The default
// is the empty label, that of a job that waits for no check.
#[derive(Clone, Copy, Debug, Default, PartialEq, Eq)]
pub struct Label {
    pub yes: u8,
    pub no: u8,
}

// A piece of work. One that finds something out is a check, and has a check number.
#[derive(Clone, Copy, Debug, PartialEq, Eq)]
pub struct Job {
    pub label: Label,
    pub check: Option<u8>,
}

#[derive(Clone, Copy, Debug, PartialEq, Eq)]
pub enum Kind {
    Least,
    Most,
}

// The second job comes at least, or at most, so many minutes after the first; minutes below 0 count backwards.
#[derive(Clone, Copy, Debug, PartialEq, Eq)]
pub struct Bound {
    pub kind: Kind,
    pub first: usize,
    pub second: usize,
    pub minutes: i32,
}

// Why a book does not take what it is handed, with the refusal's number.
#[derive(Clone, Copy, Debug, PartialEq, Eq)]
pub enum Refusal {
    JobsFull = 1,
    ChecksFull = 2,
    UnknownCheck = 3,
    BothWays = 4,
    PartMissing = 5,
    UnknownJob = 6,
    MinutesBeyond = 7,
    SameJob = 8,
    Exclusive = 9,
    BoundsFull = 10,
    UnknownBound = 11,
}

// The two lists of a book.
#[derive(Drop)]
pub struct Table {
    pub jobs: Vec<Job>,
    pub bounds: Vec<Bound>,
}

// A call on a book, with what it is handed.
#[derive(Clone, Copy, Debug, PartialEq, Eq)]
pub enum Call {
    AddJob(Label),
    AddCheck(Label),
    AddBound(Bound),
    Withdraw(usize),
}

// What a call that is taken did: the number of what was added, or that the bound is gone.
#[derive(Clone, Copy, Debug, PartialEq, Eq)]
pub enum Taken {
    NewJob(usize),
    NewBound(usize),
    Withdrawn,
}

// What a call is answered: what it did, or why it is refused.
pub type Answer = Result<Taken, Refusal>;
