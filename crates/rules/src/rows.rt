// The rows that rules are stored in: small, since a system may have 8,192 of them.
ghost use Rattle.std.specs.Prelude.{◌≡◌, [], ◌∷◌};
ghost use Rattle.rules.specs.Rows.{rule_of, step_of};

use crate::parts::Alternative;
use crate::stored::StoredRule;

// An alternative as a row has it.
#[derive(Clone, Copy, Debug, Default, PartialEq, Eq)]
pub struct Step {
    pub place: u16,
    pub minutes: i16,
}

// The place that a rule holds back, and its alternatives: the first `count` of five. No list of its own length: a verdict wants no
// memory, and an `ArrayVec` would add a word to each of 8,192 rows on the stack.
#[derive(Clone, Copy, Debug, Default, PartialEq, Eq)]
pub struct Row {
    pub held: u16,
    pub count: u8,
    pub alternatives: [Step; 5],
}

impl Row {
    // The row of a rule with one alternative.
    pub fn one(held: u16, step: Step) -> Row
        ensures rule { rule_of result ≡ record { held = held; alternatives = step_of step ∷ [] } }
        ensures count { result.count ≡ 1 }
    {
        Row {
            held,
            count: 1,
            alternatives: [step; 5],
        }
    }
}

// What a row's alternative means.
impl From<Step> for Alternative {
    ghost from_gives = { λ step r. r ≡ step_of step };

    fn from(step: Step) -> Alternative {
        Alternative {
            place: usize::from(step.place),
            minutes: i32::from(step.minutes),
        }
    }
}

impl StoredRule for Row {
    ghost rule = { rule_of };

    fn held(&self) -> usize {
        usize::from(self.held)
    }

    fn count(&self) -> usize {
        usize::from(self.count).min(5)
    }

    fn alternative(&self, a: usize) -> Option<Alternative> {
        self.alternatives[..self.count()]
            .get(a)
            .map(|step| Alternative::from(*step))
    }
}
