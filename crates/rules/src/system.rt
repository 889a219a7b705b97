// The questions that every rule system answers.
ghost use Rattle.std.specs.Prelude.{◌≡◌, List, length, slice_get};
ghost use Rattle.rules.specs.declared.parts.Origin.{Origin};
ghost use Rattle.rules.specs.Rules.{System, Sound, held_at, count_at, alternative_at};

use crate::parts::{Alternative, Origin};

// A rule system has places and an ordered list of rules that hold them back. Its answers are read off this meaning, none past
// the end, and asking alters nothing.
pub trait RuleSystem {
    ghost meaning: { Self → System };

    ghost sound: { (x : Self) → Sound (meaning x) };

    // How many places there are.
    fn places(&self) -> usize
        ensures { result ≡ (meaning self.now).places };

    // How many rules there are.
    fn rules(&self) -> usize
        ensures { result ≡ length (meaning self.now).rules };

    // The place that rule `r` holds back.
    fn held(&self, r: usize) -> Option<usize>
        ensures { result ≡ held_at (meaning self.now) r };

    // How many alternatives rule `r` has.
    fn alternatives(&self, r: usize) -> Option<usize>
        ensures { result ≡ count_at (meaning self.now) r };

    // Alternative `a` of rule `r`.
    fn alternative(&self, r: usize, a: usize) -> Option<Alternative>
        ensures { result ≡ alternative_at (meaning self.now) r a };
}

// A rule system that also names each rule's origin.
pub trait WithOrigins: RuleSystem {
    ghost origins: { Self → List Origin };

    // The origin of rule `r`: every rule has one.
    fn origin(&self, r: usize) -> Option<Origin>
        ensures origin { result ≡ slice_get (origins self.now) r }
        ensures each { length (origins self.now) ≡ length (Self.RuleSystem.meaning self.now).rules };
}
