// Facts about the answers.
// A theorem is the contract of a function with no parameter that answers 0, a rule of the project.
ghost use Rattle.find.specs.Answers.{FindExact, LoopExact};

// The answers of `find` leave nothing open: each comes exactly when its case holds.
pub fn answers_exactly() -> u8
    ensures { FindExact }
{
    0
}

// The answers of `find_or_loop` leave nothing open: each comes exactly when its case holds.
pub fn explains_exactly() -> u8
    ensures { LoopExact }
{
    0
}
