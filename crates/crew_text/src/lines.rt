// The lines that a crew reads, each put at the end of a page, which is a parameter as the formatter of a `fmt` is. No Display has them:
// names are bytes of the plan text.
use format::names::{Names, Plan};
use page::Page;
use runs::ending::Walked;
use std::alloc::AllocError;
use walks::parts::{Event, Report, Telling};

// Puts the names of a set of jobs, each after a space.
fn put_names(page: &mut Page, names: Names<'_>, jobs: u32) -> Result<(), AllocError> {
    for job in 0..20u32 {
        if (jobs >> job) % 2 == 1 {
            page.push(b" ")?;
            page.push(names.name(job as usize))?;
        }
    }
    Ok(())
}

// Puts a minute with the names of its jobs.
fn put_telling(page: &mut Page, names: Names<'_>, telling: Telling) -> Result<(), AllocError> {
    let Telling { minute, jobs } = telling;
    write!(page, "minute {minute}")?;
    put_names(page, names, jobs)?;
    page.push(b"\n")
}

// Puts a check with its outcome.
fn put_report(page: &mut Page, plan: Plan<'_>, report: Report) -> Result<(), AllocError> {
    if let Some(job) = plan.book.check_job(report.check) {
        page.push(plan.names.name(job))?;
    }
    page.push(if report.yes { b" yes\n" } else { b" no\n" })
}

// Puts the lines of a log.
pub(crate) fn put_events(
    page: &mut Page,
    plan: Plan<'_>,
    events: &[Event],
) -> Result<(), AllocError> {
    for event in events {
        match *event {
            Event::Told(telling) => put_telling(page, plan.names, telling)?,
            Event::Reported(report) => put_report(page, plan, report)?,
        }
    }
    Ok(())
}

// Puts how a run ended that was given so many outcomes: the number of jobs and the last minute, or which outcomes were too few or too many.
pub(crate) fn put_ending(
    page: &mut Page,
    names: Names<'_>,
    walked: &Walked,
    given: usize,
) -> Result<(), AllocError> {
    match walked.ending {
        Err(check) => {
            page.push(b"too few outcomes: none is left for ")?;
            page.push(names.name(check.job))?;
            page.push(b"\n")
        }
        Ok(_) if given > walked.used => {
            let over = given - walked.used;
            write!(page, "too many outcomes: {over} not asked for\n")
        }
        Ok(closed) => {
            let jobs = closed.jobs;
            let last = closed.last;
            write!(page, "jobs {jobs} last minute {last}\n")
        }
    }
}
