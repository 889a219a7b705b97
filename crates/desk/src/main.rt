// Serves a list of requests on a new book, searches a small rule system, and walks a run of the plan; prints what was answered.
#![tactic(auto)]

use account::reply_line;
use anyhow::anyhow;
use book::parts::{Bound, Call, Kind, Label};
use find::{Found, Refusal};
use listed::listed;
use promise::outcome::Outcome;
use promise::parts::{Reply, Request};
use promise::whole::plan_and_run;
use rules::parts::Origin;
use rules::rows::{Row, Step};
use runs::ending::Walked;
use std::alloc::Global;
use std::io;
use walks::parts::Event;

// A request that adds a bound. The tests of the book and the worked plan have a call alike, on other crates.
fn bound(kind: Kind, first: usize, second: usize, minutes: i32) -> Request {
    Request::Book(Call::AddBound(Bound {
        kind,
        first,
        second,
        minutes,
    }))
}

// A request that adds a job with this label.
fn job(yes: u8, no: u8) -> Request {
    Request::Book(Call::AddJob(Label { yes, no }))
}

// Prints the line of each reply.
fn print_replies(rt: &HostRuntime, heap: Global, replies: &[Reply]) -> anyhow::Result<()> {
    for reply in replies {
        let line = reply_line(heap, *reply)?;
        rt.print(line.as_str())?;
    }
    Ok(())
}

// Prints what the search answered.
fn print_found(
    rt: &HostRuntime,
    found: Result<Found, Refusal>,
    table: &[i32; 2],
) -> io::Result<()> {
    match found {
        Ok(Found::Table) => {
            let first = table[0];
            let second = table[1];
            println!(rt; "find: a table, {first} and {second}")
        }
        Ok(Found::NoTable) => println!(rt; "find: no table"),
        Err(refusal) => {
            let n = refusal.number();
            println!(rt; "find: refused {n}")
        }
    }
}

// Prints the events of a run.
fn print_events(rt: &HostRuntime, events: &[Event]) -> io::Result<()> {
    for event in events {
        match event {
            Event::Told(telling) => {
                let minute = telling.minute;
                let jobs = telling.jobs;
                println!(rt; "minute {minute} jobs {jobs:05b}")?;
            }
            Event::Reported(report) => {
                let check = report.check;
                let yes = report.yes;
                println!(rt; "check {check} {yes}")?;
            }
        }
    }
    Ok(())
}

// Prints how a run ended.
fn print_run(rt: &HostRuntime, walked: &Walked) -> io::Result<()> {
    print_events(rt, walked.log.events())?;
    match walked.ending {
        Ok(closed) => {
            let jobs = closed.jobs;
            let last = closed.last;
            println!(rt; "{jobs} jobs, last minute {last}")
        }
        Err(check) => {
            let number = check.number;
            println!(rt; "check {number} is asked for")
        }
    }
}

// Prints all that was answered.
fn print_outcome(
    rt: &HostRuntime,
    heap: Global,
    outcome: &Outcome,
    table: &[i32; 2],
) -> anyhow::Result<()> {
    print_replies(rt, heap, outcome.replies.as_slice())?;
    print_found(rt, outcome.found, table)?;
    match &outcome.run {
        Some(walked) => print_run(rt, walked)?,
        None => println!(rt; "not ready")?,
    }
    Ok(())
}

// A wet hole: look, pump on a yes, grout, seal on a no; with refused calls and all three verdicts among the requests.
fn run(rt: &HostRuntime) -> anyhow::Result<()> {
    let heap = rt.alloc();
    let requests = [
        Request::Book(Call::AddCheck(Label::default())),
        job(1, 0),
        job(0, 0),
        job(0, 1),
        job(2, 0),
        bound(Kind::Least, 0, 1, 60),
        bound(Kind::Least, 1, 2, 5),
        bound(Kind::Least, 2, 3, 90),
        bound(Kind::Most, 1, 4, 20),
        bound(Kind::Most, 4, 3, 10),
        bound(Kind::Least, 2, 4, 0),
        bound(Kind::Least, 0, 3, 4321),
        Request::Strong,
        Request::Weak,
        Request::Dynamic,
        bound(Kind::Most, 0, 3, 60),
        Request::Weak,
        Request::Dynamic,
        Request::Book(Call::Withdraw(5)),
        Request::Book(Call::Withdraw(5)),
        Request::Dynamic,
    ];
    let mut minutes = [0i32; 10];
    let mut loops = [Origin::Start(0); 20];
    let mut table = [0i32; 2];
    let step = Step {
        place: 0,
        minutes: 5,
    };
    let rows = [Row::one(1, step)];
    let Some(system) = listed(2, &rows) else {
        return Err(anyhow!("the rows are no rule system"));
    };
    let outcome = plan_and_run(
        heap,
        &requests,
        &mut minutes,
        &mut loops,
        &system,
        &mut table,
        &[false],
    )?;
    print_outcome(rt, heap, &outcome, &table)
}

fn main(rt: HostRuntime) -> anyhow::Result<()> {
    run(&rt)
}
