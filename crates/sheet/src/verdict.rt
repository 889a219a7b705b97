// What the three grades say.
ghost use Rattle.std.specs.Prelude.{◌≡◌};
ghost use Rattle.sheet.specs.Sheet.{answer_word};

use std::fmt;
use verdicts::{DynamicAnswer, StrongAnswer, WeakAnswer};

// The three verdicts on a plan, as they were answered.
#[derive(Clone, Copy)]
pub struct Verdicts {
    pub strong: StrongAnswer,
    pub dynamic: DynamicAnswer,
    pub weak: WeakAnswer,
}

// The word of a verdict: a `bool` prints other words.
fn answer_word(yes: bool) -> &'static str
    ensures { result.now ≡ answer_word yes }
{
    if yes { "yes" } else { "no" }
}

// The lines of the three verdicts.
impl fmt::Display for Verdicts {
    ghost use Rattle.std.specs.Prelude.{Some};
    ghost use Rattle.sheet.specs.Sheet.{verdict_lines, is_strong, is_dynamic, is_weak};

    ghost output = { λ v. Some (verdict_lines (is_strong v.strong) (is_dynamic v.dynamic) (is_weak v.weak)) };

    fn fmt<W: fmt::Write>(&self, f: &mut fmt::Formatter<W>) -> fmt::Result {
        let strong = answer_word(matches!(self.strong, StrongAnswer::Yes));
        let dynamic = answer_word(matches!(self.dynamic, DynamicAnswer::Yes));
        let weak = answer_word(matches!(self.weak, WeakAnswer::Yes));
        write!(f, "strong {strong}\ndynamic {dynamic}\nweak {weak}\n")
    }
}
