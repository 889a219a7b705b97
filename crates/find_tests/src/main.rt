// Small rule systems, and what `find` and `find_or_loop` answer of each.
#![tactic(auto)]

use find::{Explained, Found, Refusal, find, find_or_loop};
use listed::{Listed, listed};
use rules::parts::Origin;
use rules::rows::{Row, Step};
use rules::system::{RuleSystem, WithOrigins};
use std::{array, io};

// An alternative by a place and minutes.
fn step(place: u16, minutes: i16) -> Step {
    Step { place, minutes }
}

// A rule of one alternative.
fn one(held: u16, place: u16, minutes: i16) -> Row {
    Row::one(held, step(place, minutes))
}

// A rule of two alternatives.
fn two(held: u16, first: Step, second: Step) -> Row {
    Row {
        held,
        count: 2,
        alternatives: [first, second, second, second, second],
    }
}

// What `find` says, with the first three minutes, the last that there can be, and the one after the places.
fn show(rt: HostRuntime, system: &Listed, places: usize) -> io::Result<()> {
    let mut minutes = [7i32; 321];
    let after = places.min(320);
    match find(system, &mut minutes) {
        Ok(Found::Table) => println!(rt;
            "  table {} {} {} .. {} ({})",
            minutes[0], minutes[1], minutes[2], minutes[319], minutes[after]
        ),
        Ok(Found::NoTable) => println!(rt; "  no table ({})", minutes[0]),
        Err(refusal) => println!(rt; "  refused {}", refusal.number()),
    }
}

// The number of the bound that a rule comes from, or 1000 for another origin: the program's output, which stays, shows it so.
fn bound(origin: Origin) -> usize {
    match origin {
        Origin::Bound(n) => n,
        Origin::Start(_) | Origin::Check(_, _) => 1000,
    }
}

// What `find_or_loop` says, with the first two rules of a loop and what follows.
fn explain(rt: HostRuntime, system: &Listed) -> io::Result<()> {
    // Two lists, as the search is lent.
    let mut minutes = [7i32; 320];
    let mut origins = [Origin::Start(0); 320];
    match find_or_loop(system, &mut minutes, &mut origins) {
        Ok(Explained::Table) => println!(rt; "  table {} {}", minutes[0], bound(origins[0])),
        Ok(Explained::Loop(n)) => println!(rt;
            "  loop of {}: {} {} {} ({})",
            n,
            bound(origins[0]),
            bound(origins[1]),
            bound(origins[2]),
            minutes[0]
        ),
        Err(refusal) => println!(rt; "  refused {}", refusal.number()),
    }
}

// Both, of the rule system of these rows.
fn both(rt: HostRuntime, name: &str, places: usize, rows: &[Row]) -> io::Result<()> {
    println!(rt; "{}", name)?;
    match listed(places, rows) {
        None => println!(rt; "  not sound"),
        Some(system) => {
            show(rt, &system, places)?;
            explain(rt, &system)
        }
    }
}

// Systems of few rules.
fn small(rt: HostRuntime) -> io::Result<()> {
    both(rt, "no rules", 1, &[])?;
    both(rt, "a chain", 3, &[one(1, 0, 30), one(2, 1, 10)])?;
    both(rt, "two equal rules", 2, &[one(1, 0, 30), one(1, 0, 30)])?;
    both(
        rt,
        "minutes below 0",
        2,
        &[one(1, 0, -20), one(0, 1, -4320)],
    )?;
    both(rt, "a loop of sum 0", 2, &[one(1, 0, 30), one(0, 1, -30)])?;
    both(rt, "a loop of sum 1", 2, &[one(1, 0, 30), one(0, 1, -29)])?;
    both(rt, "a loop of one rule", 3, &[one(1, 0, 5), one(2, 2, 1)])?;
    both(
        rt,
        "a loop behind a chain",
        4,
        &[one(3, 2, 1), one(2, 1, 1), one(1, 2, 0)],
    )?;
    both(rt, "a place past the end", 3, &[one(3, 0, 30)])?;
    both(rt, "too many minutes", 3, &[one(1, 0, 4321)])?;
    both(rt, "no places", 0, &[])
}

// Rules with several alternatives.
fn several(rt: HostRuntime) -> io::Result<()> {
    let falling = [
        step(0, 50),
        step(0, 40),
        step(0, 30),
        step(0, 20),
        step(0, 10),
    ];
    let last_is_least = Row {
        held: 1,
        count: 5,
        alternatives: falling,
    };
    both(rt, "five alternatives", 2, &[last_is_least])?;
    let far = step(2, 10);
    let up = [two(0, step(1, 1), far), two(1, step(0, 1), far)];
    both(rt, "more rounds than places", 3, &up)
}

// As many places as there can be: each a minute after the one before.
fn many(rt: HostRuntime) -> io::Result<()> {
    let rows: [Row; 319] = array::from_fn(|i| one(i as u16 + 1, i as u16, 1));
    both(rt, "320 places", 320, &rows)
}

// The number of a refusal. The tests of the book have one alike, over the book's refusals.
fn refused(answer: Result<Explained, Refusal>) -> Option<u8> {
    answer.err().map(Refusal::number)
}

// Lists that are too short, and questions past the end.
fn ends(rt: HostRuntime) -> io::Result<()> {
    let Some(system) = listed(2, &[one(1, 0, 30)]) else {
        return println!(rt; "not sound");
    };
    // Lists of other lengths, as the search is lent.
    let mut minutes = [7i32; 1];
    let mut enough = [7i32; 2];
    let mut origins = [Origin::Start(0); 1];
    let short = refused(find_or_loop(&system, &mut minutes, &mut origins));
    let no_list = refused(find_or_loop(&system, &mut enough, &mut origins));
    match (short, no_list) {
        (Some(short), Some(no_list)) => println!(rt;
            "refused {} {} ({} {})",
            short, no_list, minutes[0], enough[0]
        )?,
        _ => println!(rt; "not refused")?,
    }
    println!(rt;
        "past the end {} {} {} {} {}",
        system.held(1).is_none(),
        system.alternatives(1).is_none(),
        system.alternative(1, 0).is_none(),
        system.alternative(0, 1).is_none(),
        system.origin(1).is_none()
    )?;
    println!(rt;
        "before it {} {} {} {}",
        system.held(0).is_some(),
        system.alternatives(0).is_some(),
        system.alternative(0, 0).is_some(),
        system.origin(0).is_some()
    )
}

fn main(rt: HostRuntime) -> io::Result<()> {
    small(rt)?;
    several(rt)?;
    many(rt)?;
    ends(rt)
}
