// Rule systems whose rules are collected in a table.
ghost use Rattle.std.specs.Prelude.{map};
ghost use Rattle.rules.specs.Rules.{Sound, System};
ghost use Rattle.rules.specs.Single.{sound_single};
ghost use Rattle.rules.specs.Rows.{system_by};

use crate::parts::{Alternative, Origin};
use crate::stored::{StoredRule, Traced};
use crate::system::{RuleSystem, WithOrigins};
use crate::table::RuleTable;

// So many places, and the rules over them. Whoever makes one shows that it is sound.
#[derive(Drop)]
pub struct Collected<R: StoredRule, const N: usize> {
    pub places: usize,
    pub table: RuleTable<R, N>,
    ghost sound: { Sound (system_by R.rule places table) } by { sound_single (system_by R.rule places table) },
}

impl<R: StoredRule, const N: usize> RuleSystem for Collected<R, N> {
    ghost meaning = { λ x. system_by R.rule x.places x.table };

    ghost sound = { λ x. x.sound };

    fn places(&self) -> usize {
        self.places
    }

    fn rules(&self) -> usize {
        self.table.rules().len()
    }

    fn held(&self, r: usize) -> Option<usize> {
        self.table.rules().get(r).map(|rule| rule.held())
    }

    fn alternatives(&self, r: usize) -> Option<usize> {
        self.table.rules().get(r).map(|rule| rule.count())
    }

    fn alternative(&self, r: usize, a: usize) -> Option<Alternative> {
        self.table.rules().get(r)?.alternative(a)
    }
}

impl<R: Traced, const N: usize> WithOrigins for Collected<R, N> {
    ghost origins = { λ x. map R.source x.table };

    fn origin(&self, r: usize) -> Option<Origin> {
        self.table.rules().get(r).map(|rule| rule.origin())
    }
}
