// Facts that hold of every rule system.
// A theorem is the contract of a function with no parameter that answers 0, a rule of the project.
ghost use Rattle.rules.specs.Loops.{LoopBars};

// Where each rule has one alternative, no table keeps the rules of a loop.
pub fn loop_bars() -> u8
    ensures { LoopBars }
{
    0
}
