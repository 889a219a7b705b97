// What the planner replied, as lines of text.
#![tactic(auto)]

ghost use Rattle.std.specs.Prelude.{◌≡◌, IfOk, Some, string_bytes};
ghost use Rattle.account.specs.Lines.{reply_line};

use book::parts::Taken;
use promise::parts::Reply;
use std::alloc::{AllocError, Global};
use std::fmt;
use verdicts::{DynamicAnswer, StrongAnswer, WeakAnswer};

// A reply, printed as its line: a type of this crate, since a Display stands with the trait or the type.
#[derive(Clone, Copy)]
struct Line(Reply);

impl fmt::Display for Line {
    ghost output = { λ l. Some (reply_line l.0) };

    fn fmt<W: fmt::Write>(&self, f: &mut fmt::Formatter<W>) -> fmt::Result {
        match self.0 {
            Reply::Book(Ok(Taken::NewJob(n))) => writeln!(f, "job {n}"),
            Reply::Book(Ok(Taken::NewBound(n))) => writeln!(f, "bound {n}"),
            Reply::Book(Ok(Taken::Withdrawn)) => writeln!(f, "withdrawn"),
            Reply::Book(Err(refusal)) => writeln!(f, "refused {}", refusal.number()),
            Reply::Strong(Ok(StrongAnswer::Yes)) => writeln!(f, "strong yes"),
            Reply::Strong(Ok(StrongAnswer::No { length })) => writeln!(
                f,
                "strong no loop {length}"
            ),
            Reply::Strong(Err(refusal)) => writeln!(f, "strong refused {}", refusal.number()),
            Reply::Weak(Ok(WeakAnswer::Yes)) => writeln!(f, "weak yes"),
            Reply::Weak(Ok(WeakAnswer::No { case, length })) => writeln!(
                f,
                "weak no case {case} loop {length}"
            ),
            Reply::Weak(Err(refusal)) => writeln!(f, "weak refused {}", refusal.number()),
            Reply::Dynamic(Ok(DynamicAnswer::Yes)) => writeln!(f, "dynamic yes"),
            Reply::Dynamic(Ok(DynamicAnswer::No)) => writeln!(f, "dynamic no"),
            Reply::Dynamic(Err(refusal)) => writeln!(f, "dynamic refused {}", refusal.number()),
        }
    }
}

// The line of a reply.
pub fn reply_line(heap: Global, reply: Reply) -> Result<String, AllocError>
    ensures { IfOk result (λ s. string_bytes s ≡ reply_line reply) }
{
    Line(reply).to_string(heap)
}
