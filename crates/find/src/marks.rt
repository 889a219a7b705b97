// Marks on places: which of them bar each other.
ghost use Rattle.std.specs.Prelude.{◌≡◌, ℕ, false, length, slice_index_or};
ghost use Rattle.rules.specs.Rules.{at};
ghost use Rattle.rules.specs.Search.{In, Out, Marked, LeadsOut, Peels, Closed, Ruled, Swept, FirstIn};

use crate::asking::Rule;
use crate::tables::{PLACES, Table};
use rules::system::RuleSystem;

// Whether each place is marked. The marks live for one round, so they stand apart from the table; a search writes them over in each.
#[derive(Clone, Copy)]
pub(crate) struct Marks {
    inside: [bool; PLACES],
}

impl Marks {
    // No place is marked.
    pub(crate) fn none() -> Marks
        ensures { (p : ℕ) → Out result.inside p }
    {
        Marks {
            inside: [false; PLACES],
        }
    }

    // Marks the places above 0, and no others.
    pub(crate) fn mark_above_zero(&mut self, table: &Table)
        ensures marks { (p : ℕ) → Marked (slice_index_or self.new.inside p false) (at table.now.minutes p) }
        ensures wide { length self.new.inside ≡ PLACES }
    {
        // A loop: with `map` of the array a search takes several times as long.
        for (p, place) in table.places.iter().enumerate() {
            self.inside[p] = place.minute > 0;
        }
    }

    // Takes the mark off each place whose rule leads out, once, and says whether there was any. Each test reads the marks as they then are,
    // so this is no `map`.
    fn sweep<T: RuleSystem>(&mut self, system: &T, table: &Table) -> bool
        requires { (p : ℕ) → In self.old.inside p → Ruled (T.meaning system.now) table.now.by p }
        ensures peels { Peels (T.meaning system.now) table.now.by self.old.inside self.new.inside }
        ensures swept { Swept (T.meaning system.now) table.now.by self.old.inside self.new.inside result }
    {
        let mut dropped = false;
        for (p, place) in table.places[..system.places()].iter().enumerate() {
            if self.inside[p] && Rule::new(system, place.by).leads_out(self) {
                self.inside[p] = false;
                dropped = true;
            }
        }
        dropped
    }

    // Takes marks off until no rule of a marked place leads out.
    pub(crate) fn peel<T: RuleSystem>(&mut self, system: &T, table: &Table)
        requires { (p : ℕ) → In self.old.inside p → Ruled (T.meaning system.now) table.now.by p }
        ensures peels { Peels (T.meaning system.now) table.now.by self.old.inside self.new.inside }
        ensures closed { Closed (T.meaning system.now) table.now.by self.new.inside }
    {
        while self.sweep(system, table) {}
    }

    // The first place that is marked.
    pub(crate) fn first(&self) -> Option<usize>
        ensures { FirstIn self.now.inside result }
    {
        self.inside.iter().position(|&mark| mark)
    }
}

impl<'a, T: RuleSystem> Rule<'a, T> {
    // Whether an alternative of the rule leads to a place that is not marked.
    fn leads_out(&self, marks: &Marks) -> bool
        ensures { LeadsOut self.now marks.now.inside result }
    {
        (0..self.count()).any(|a| !marks.inside[self.way(a).place])
    }
}
