// What holds of every text, named so that the check covers it.
// A theorem is the contract of a function with no parameter that answers 0, a rule of the project.
ghost use Rattle.format.specs.Theorems.{ReadsExactly, ReadsPlans, OnePlan, NamesStand, FaultsByLines, FirstFault, LinesBefore};
ghost use Rattle.format.specs.Example.{FaultsMet};

// A text is read as a plan exactly when it is the writing-out of that plan, which is well formed and which the book takes.
pub fn reads_exactly() -> u8
    ensures { ReadsExactly }
{
    0
}

// What is read is always the reading of a plan.
pub fn reads_plans() -> u8
    ensures { ReadsPlans }
{
    0
}

// Two plans have two texts.
pub fn one_plan() -> u8
    ensures { OnePlan }
{
    0
}

// The names of a plan that is read stand in its text, one for each job but `start`.
pub fn names_stand() -> u8
    ensures { NamesStand }
{
    0
}

// A fault is there by its own line and those before it.
pub fn faults_by_lines() -> u8
    ensures { FaultsByLines }
{
    0
}

// No line before a fault's line has any.
pub fn first_fault() -> u8
    ensures { FirstFault }
{
    0
}

// The lines before a fault's line, alone, want only the next line.
pub fn lines_before() -> u8
    ensures { LinesBefore }
{
    0
}

// Short texts that meet each fault.
pub fn faults_met() -> u8
    ensures { FaultsMet }
{
    0
}
