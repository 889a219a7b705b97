// Asking a rule system, and what its rules ask of a table.
ghost use Rattle.std.specs.Prelude.{◌≡◌, ◌<◌, ◌≤◌, length, pos, neg_ℤ, ◌≤ℤ◌};
ghost use Rattle.rules.specs.Rules.{SoundAlternative, rule, alternative};
ghost use Rattle.rules.specs.Search.{asked, asked_by, LeastAsked};

use crate::tables::{PLACES, Table};
use rules::parts::Alternative;
use rules::system::RuleSystem;
use std::marker::Model;

// So many minutes after another, or 0 where that is before the start. No `saturating_add_signed`: it asks for the sign of the minutes, and
// this is the innermost step of a search.
fn shifted(from: u32, minutes: i32) -> u32
    requires { (from ≤ 36771840) × ((neg_ℤ (pos 4320) ≤ℤ minutes) × (minutes ≤ℤ pos 4320)) }
    ensures { result ≡ asked from minutes }
{
    (from as i32 + minutes).max(0) as u32
}

// A rule of a system, by a number that the system has. A contract sees the rule itself.
#[derive(Drop)]
pub(crate) struct Rule<'a, T: RuleSystem> {
    system: &'a T,
    number: usize,
}

impl<'a, T: RuleSystem> Model for Rule<'a, T> {
    ghost use Rattle.std.specs.Prelude.{◌<◌, length};
    ghost use Rattle.rules.specs.Rules.{Rule as Meaning, rule};

    ghost Value = { Meaning };

    ghost view = { λ r. rule (T.meaning r.system.now) r.number };

    ghost invariant = { λ r. r.number < length (T.meaning r.system.now).rules };
}

impl<'a, T: RuleSystem> Rule<'a, T> {
    // Rule `number` of a system.
    pub(crate) fn new(system: &'a T, number: usize) -> Rule<'a, T>
        requires { number < length (T.meaning system.now).rules }
        ensures { result ≡ rule (T.meaning system.now) number }
    {
        Rule { system, number }
    }

    // The place that the rule holds back.
    pub(crate) fn held(&self) -> usize
        ensures value { result ≡ self.now.held }
        ensures within { result < PLACES }
    {
        self.system.held(self.number).unwrap()
    }

    // How many alternatives the rule has.
    pub(crate) fn count(&self) -> usize
        ensures value { result ≡ length self.now.alternatives }
        ensures some { 1 ≤ result }
    {
        self.system.alternatives(self.number).unwrap()
    }

    // Alternative `a` of the rule.
    pub(crate) fn way(&self, a: usize) -> Alternative
        requires { a < length self.now.alternatives }
        ensures value { result ≡ alternative self.now a }
        ensures sound { SoundAlternative PLACES result }
    {
        self.system.alternative(self.number, a).unwrap()
    }

    // What alternative `a` asks of the place that the rule holds back: 0 where that is before the start.
    fn asked(&self, a: usize, table: &Table) -> u32
        requires { a < length self.now.alternatives }
        ensures { result ≡ asked_by table.now.minutes (alternative self.now a) }
    {
        let way = self.way(a);
        shifted(table.places[way.place].minute, way.minutes)
    }

    // The least that an alternative of the rule asks.
    pub(crate) fn least_asked(&self, table: &Table) -> u32
        ensures { LeastAsked table.now.minutes self.now result }
    {
        let ways = 0..self.count();
        ways.map(|a| self.asked(a, table)).min().unwrap()
    }
}
