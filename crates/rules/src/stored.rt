// Rules in the form in which a table stores them.
ghost use Rattle.std.specs.Prelude.{◌≡◌, length, slice_get};
ghost use Rattle.rules.specs.declared.parts.Origin.{Origin};
ghost use Rattle.rules.specs.Rules.{Rule};

use crate::parts::{Alternative, Origin};

// What is stored of a rule, from which the rule can be read.
pub trait StoredRule: Copy + Default + Drop {
    ghost rule: { Self → Rule };

    // The place that the rule holds back.
    fn held(&self) -> usize
        ensures { result ≡ (rule self.now).held };

    // How many alternatives the rule has.
    fn count(&self) -> usize
        ensures { result ≡ length (rule self.now).alternatives };

    // Alternative `a` of the rule.
    fn alternative(&self, a: usize) -> Option<Alternative>
        ensures { result ≡ slice_get (rule self.now).alternatives a };
}

// A stored rule with its origin.
pub trait Traced: StoredRule {
    ghost source: { Self → Origin };

    // The origin of the rule.
    fn origin(&self) -> Origin
        ensures { result ≡ source self.now };
}
