// The table that a system collects its rules in.
ghost use Rattle.std.specs.Prelude.{◌≡◌, ◌≤◌, List, [], ◌∷◌, ◌++◌, length, take};
ghost use Rattle.rules.specs.Tables.{Adds};

use crate::stored::StoredRule;
use arrayvec::ArrayVec;
use std::marker::Model;

// Up to `N` stored rules. A verdict wants no memory, so they lie in the table itself.
#[derive(Drop)]
pub struct RuleTable<R, const N: usize> {
    rules: ArrayVec<R, N>,
}

// Clauses see the rules, in the order in which they were put there.
impl<R, const N: usize> Model for RuleTable<R, N> {
    ghost Value = { List R };

    ghost view = { λ t. t.rules.items };
}

impl<R: StoredRule, const N: usize> RuleTable<R, N> {
    // A table with no rules.
    pub fn new() -> RuleTable<R, N>
        ensures { result ≡ [] }
    {
        RuleTable {
            rules: ArrayVec::new(),
        }
    }

    // Puts a rule after the others; a full table stays as it is.
    pub fn push(&mut self, rule: R)
        ensures adds { Adds N self.old (rule ∷ []) self.new }
        ensures cut { self.new ≡ take N (self.old ++ rule ∷ []) }
    {
        let _ = self.rules.try_push(rule);
    }

    // The rules.
    pub fn rules(&self) -> &[R]
        ensures all { result.now ≡ self.now }
        ensures fits { length result.now ≤ N }
    {
        self.rules.as_slice()
    }
}
