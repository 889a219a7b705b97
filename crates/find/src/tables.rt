// The table of a search, and the rounds over the rules that raise its places.
ghost use Rattle.std.specs.Prelude.{◌≡◌, ◌+◌, ◌<◌, ◌≤◌, ◌++◌, map, length, take, drop, pos};
ghost use Rattle.rules.specs.Rules.{System, rule, Kept};
ghost use Rattle.rules.specs.Search.{Good, Grown, AllKept};

use crate::asking::Rule;
use rules::system::RuleSystem;
use std::marker::Model;

// As many places as a rule system may have.
pub(crate) const PLACES: usize = 320;

// The minute of a place so far, and the number of the rule that raised it last. At minute 0 no rule has: the number means nothing then,
// and an Option would make each of 320 places longer.
#[derive(Clone, Copy)]
pub(crate) struct Place {
    pub(crate) minute: u32,
    pub(crate) by: usize,
}

// A place for each that a system may have, on the way to the least table: an array, since a search wants no memory.
#[derive(Drop)]
pub(crate) struct Table {
    pub(crate) places: [Place; PLACES],
}

impl Model for Table {
    ghost use Rattle.find.specs.Tables.{TableView, IsTable, table_of};

    ghost Value = { TableView };

    ghost view = { λ t. table_of t.places };

    ghost invariant = { λ t. IsTable (table_of t.places) };
}

impl Table {
    // No place is raised yet.
    pub(crate) fn new() -> Table
        ensures { (m : System) → Good m 0 result.minutes result.by }
    {
        Table {
            places: [Place { minute: 0, by: 0 }; PLACES],
        }
    }

    // Raises the place that rule `number` holds back, where the table does not keep the rule, and records the rule for
    // it.
    fn raise<T: RuleSystem>(&mut self, system: &T, number: usize) -> bool
        requires known { number < length (T.meaning system.now).rules }
        requires good { Good (T.meaning system.now) number self.old.minutes self.old.by }
        ensures good { Good (T.meaning system.now) (number + 1) self.new.minutes self.new.by }
        ensures grown { Grown (Kept self.old.minutes (rule (T.meaning system.now) number))
            self.old.minutes self.new.minutes result }
    {
        let rule = Rule::new(system, number);
        let minute = rule.least_asked(self);
        let held = rule.held();
        if minute <= self.places[held].minute {
            return false;
        }
        self.places[held] = Place { minute, by: number };
        true
    }

    // Goes through the rules once, raising where it has to.
    pub(crate) fn round<T: RuleSystem>(&mut self, system: &T) -> bool
        requires { Good (T.meaning system.now) 0 self.old.minutes self.old.by }
        ensures good { Good (T.meaning system.now) (length (T.meaning system.now).rules)
            self.new.minutes self.new.by }
        ensures grown { Grown (AllKept (T.meaning system.now) self.old.minutes)
            self.old.minutes self.new.minutes result }
    {
        let mut rose = false;
        for number in 0..system.rules() {
            rose |= self.raise(system, number);
        }
        rose
    }

    // Writes the minutes of the first `n` places over those of `minutes`.
    pub(crate) fn write_out(&self, n: usize, minutes: &mut [i32])
        requires from { n ≤ PLACES }
        requires wide { n ≤ length minutes.old }
        ensures { minutes.new ≡ map pos (take n self.now.minutes) ++ drop n minutes.old }
    {
        // By index: after an iterator over a part of the caller's slice nothing is known of what was written.
        for (p, place) in self.places[..n].iter().enumerate() {
            minutes[p] = place.minute as i32;
        }
    }
}
