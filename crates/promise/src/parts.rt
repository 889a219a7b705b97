// What is asked of the planner, and what it replies.
use book::parts::{Answer, Call};
use find::Refusal;
use verdicts::answers::{DynamicAnswer, StrongAnswer, WeakAnswer};

// A call of the book, or a verdict on it.
#[derive(Clone, Copy, Debug, PartialEq, Eq)]
pub enum Request {
    Book(Call),
    Strong,
    Weak,
    Dynamic,
}

// What a request is answered.
#[derive(Clone, Copy, Debug, PartialEq, Eq)]
pub enum Reply {
    Book(Answer),
    Strong(Result<StrongAnswer, Refusal>),
    Weak(Result<WeakAnswer, Refusal>),
    Dynamic(Result<DynamicAnswer, Refusal>),
}
