// The worked examples: what the definitions say of a new book and of the plan for a hole that may be wet.
#![tactic(auto)]

ghost use Rattle.examples.specs.Worked.{Worked};

pub mod plans;

// Every worked example follows from the definitions: a theorem, so the contract of a function that answers 0.
pub fn worked_examples() -> u8
    ensures { Worked }
{
    0
}
