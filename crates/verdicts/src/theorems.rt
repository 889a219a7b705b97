// Facts about the answers.
// A theorem is the contract of a function with no parameter that answers 0, a rule of the project.
ghost use Rattle.verdicts.specs.Exact.{StrongExact, WeakExact, DynamicExact};

// The answers of the verdicts leave nothing open: each comes exactly when its case holds.
pub fn answers_exactly() -> u8
    ensures strong { StrongExact }
    ensures weak { WeakExact }
    ensures dynamic { DynamicExact }
{
    0
}
