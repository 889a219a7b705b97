// A loop of rules, where no table keeps them.
ghost use Rattle.std.specs.Prelude.{◌≡◌, ℕ, ◌<◌, ◌≤◌, ◌++◌, map, length, drop, slice_index};
ghost use Rattle.rules.specs.Loops.{Loop, Stuck};
ghost use Rattle.find.specs.Answers.{Explains, Looped, origin_of};

use crate::answers::{Explained, Refusal};
use crate::asking::Rule;
use crate::searching::search;
use crate::tables::{PLACES, Table};
use rules::parts::Origin;
use rules::system::{RuleSystem, WithOrigins};

// The table at which a search stopped, and one of the places that bar each other there.
#[derive(Drop)]
pub(crate) struct Barred {
    pub(crate) table: Table,
    pub(crate) place: usize,
}

impl Barred {
    // Walks from the place, by the rules that bar it, until a place comes again. The rules are written over the first
    // of `walked`, which the caller lends, so that the loop can be given as a part of it; `seen` has how many went before each place.
    fn walk<'a, T: RuleSystem>(&self, system: &T, walked: &'a mut [usize; PLACES]) -> &'a [usize]
        requires { Stuck (T.meaning system.now) self.now.table.by self.now.place }
        ensures { Loop (T.meaning system.now) result.now }
    {
        let table = &self.table;
        let mut seen = [None; PLACES];
        let mut place = self.place;
        // By number, since the places come in the order of the walk.
        for n in 0..PLACES + 1 {
            if let Some(from) = seen[place] {
                return &walked[from..n];
            }
            seen[place] = Some(n);
            let number = table.places[place].by;
            walked[n] = number;
            place = Rule::new(system, number).way(0).place;
        }
        // A place has come again by then, since there are no more.
        unreachable!()
    }

    // Writes the origins of a loop over the first of `out`, and says how many they are.
    pub(crate) fn write_loop<T: WithOrigins>(&self, system: &T, out: &mut [Origin]) -> usize
        requires stuck { Stuck (T.meaning system.now) self.now.table.by self.now.place }
        requires wide { (T.meaning system.now).places ≤ length out.old }
        ensures { Looped (T.meaning system.now) (T.origins system.now) out.old out.new result }
    {
        let mut walked = [0; PLACES];
        let round = self.walk(system, &mut walked);
        write_origins(system, round, out);
        round.len()
    }
}

// Writes the origins of these rules over the first of `out`.
fn write_origins<T: WithOrigins>(system: &T, rules: &[usize], out: &mut [Origin])
    requires known { (i : ℕ) → i < length rules.now →
        slice_index rules.now i < length (T.meaning system.now).rules }
    requires wide { length rules.now ≤ length out.old }
    ensures { out.new ≡ map (origin_of (T.origins system.now)) rules.now ++ drop (length rules.now) out.old }
{
    // By index: after an iterator over a part of the caller's slice nothing is known of what was written.
    for (i, &number) in rules.iter().enumerate() {
        out[i] = system.origin(number).unwrap();
    }
}

// Writes the least table that keeps every rule over the first of `minutes`; or, where there is none, the origins of a
// loop of rules over the first of `out`.
pub fn find_or_loop<T: WithOrigins>(
    t: &T,
    minutes: &mut [i32],
    out: &mut [Origin],
) -> Result<Explained, Refusal>
    ensures { Explains (T.meaning t.now) (T.origins t.now)
        minutes.old minutes.new out.old out.new result }
{
    let n = t.places();
    if minutes.len() < n {
        return Err(Refusal::MinutesShort);
    }
    if out.len() < n {
        return Err(Refusal::LoopShort);
    }
    match search(t) {
        Ok(table) => {
            table.write_out(n, minutes);
            Ok(Explained::Table)
        }
        Err(barred) => Ok(Explained::Loop(barred.write_loop(t, out))),
    }
}
