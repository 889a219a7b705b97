// The tables that keep the rules of a plan are its strategies: each theorem is named by the contract of a
// function with no parameter that answers 0, a rule of the project.
#![tactic(auto)]

pub mod holds;

ghost use Rattle.grades.specs.Theorems.{StrongTables, WeakTables, DynamicTables, GradesInOrder, SystemsSound, RunsAlike};

// The tables of the strong rules are the strong strategies, and the least is the earliest.
pub fn strong_tables() -> u8
    ensures { StrongTables }
{
    0
}

// The tables of the weak rules, one for each case, are the strategies, and the least are the earliest.
pub fn weak_tables() -> u8
    ensures { WeakTables }
{
    0
}

// The tables of the dynamic rules are the dynamic strategies, and the least is the earliest.
pub fn dynamic_tables() -> u8
    ensures { DynamicTables }
{
    0
}

// What is strong is dynamic, and what is dynamic is weak.
pub fn grades_in_order() -> u8
    ensures { GradesInOrder }
{
    0
}

// The three systems of a book are rule systems.
pub fn systems_sound() -> u8
    ensures { SystemsSound }
{
    0
}

// Cases that agree on what is known by a minute have the same jobs up to it, at the same minutes.
pub fn runs_alike() -> u8
    ensures { RunsAlike }
{
    0
}
