// Jobs held back by jobs.
ghost use Rattle.grades.specs.Systems.{rule_of};

use rules::parts::{Alternative, Origin};
use rules::stored::{StoredRule, Traced};

// One job held back by another: it comes at least so many minutes after it. The origin says why.
#[derive(Clone, Copy, Debug, Default, PartialEq, Eq)]
pub struct Hold {
    pub held: usize,
    pub by: usize,
    pub minutes: i32,
    pub origin: Origin,
}

// The rule of a hold, where each job has the place of its own number.
impl StoredRule for Hold {
    ghost rule = { rule_of (λ j. j) };

    fn held(&self) -> usize {
        self.held
    }

    fn count(&self) -> usize {
        1
    }

    fn alternative(&self, a: usize) -> Option<Alternative> {
        if a > 0 {
            return None;
        }
        Some(Alternative {
            place: self.by,
            minutes: self.minutes,
        })
    }
}

impl Traced for Hold {
    ghost source = { λ hold. hold.origin };

    fn origin(&self) -> Origin {
        self.origin
    }
}
