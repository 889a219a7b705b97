// Theorems on logs of runs.
// A theorem is the contract of a function with no parameter that answers 0, a rule of the project.
ghost use Rattle.walks.specs.Law.{LawfulKeepLaw, EndedAreWhole};

// Every lawful log keeps the law.
pub fn lawful_keep_law() -> u8
    ensures { LawfulKeepLaw }
{
    0
}

// At the end every agreeing case had all its jobs told, each once.
pub fn ended_are_whole() -> u8
    ensures { EndedAreWhole }
{
    0
}
