// The lines of a sheet, each put at the end of a page, which is a parameter as the formatter of a `fmt` is. No Display has them, since
// its contract could not say how long they are. A minute below 0 is that of a job not done, as the verdicts write it.
// Kept beside the plan and not in one struct with it: each clause would have to say as well that the plan stays the same.
ghost use Rattle.std.specs.Prelude.{◌≡◌, ◌+◌, ◌*◌, ◌≤◌, ◌++◌, All, length, take, OnOk};
ghost use Rattle.book.specs.Plain.{cases};
ghost use Rattle.book.specs.Held.{held};
ghost use Rattle.format.specs.Named.{name};
ghost use Rattle.verdicts.specs.Verdicts.{size};
ghost use Rattle.sheet.specs.Sheet.{fault_line, job_line, job_lines, jobs_done, case_lines, cases_lines, table_lines};
ghost use Rattle.sheet.specs.Sheet.{origin_line, origin_lines, loop_lines, Within};

use crate::grade::Grade;
use format::names::{Names, Plan};
use format::parts::{Fault, Reason};
use page::Page;
use rules::parts::Origin;
use std::alloc::AllocError;

// Puts the line of a fault.
pub(crate) fn put_fault(page: &mut Page, fault: Fault) -> Result<(), AllocError>
    ensures put { OnOk result (page.new ≡ page.old ++ fault_line fault) }
    ensures short { OnOk result (length (fault_line fault) ≤ 8192) }
{
    let layer = match fault.reason {
        Reason::File(_) => "file",
        Reason::Book(_) => "book",
    };
    let number = fault.reason.number();
    let Fault { line, byte, .. } = fault;
    write!(page, "fault {layer} {number} line {line} byte {byte}\n")
}

// Puts the line of a job, where it is done.
fn put_job(page: &mut Page, name: &[u8], minute: i32) -> Result<(), AllocError>
    requires few { length name.now ≤ 8 }
    ensures put { OnOk result (page.new ≡ page.old ++ job_line name.now minute) }
    ensures short { OnOk result (length (job_line name.now minute) ≤ 20) }
{
    if minute < 0 {
        return Ok(());
    }
    page.push(name)?;
    write!(page, " {minute}\n")
}

// Puts the lines of the jobs of a case.
fn put_jobs(page: &mut Page, names: Names<'_>, row: &[i32]) -> Result<(), AllocError>
    ensures put { OnOk result (page.new ≡ page.old ++ job_lines (name names.entry) row.now (length row.now)) }
    ensures short { OnOk result
        (length (job_lines (name names.entry) row.now (length row.now)) ≤ 20 * length row.now) }
{
    for (job, minute) in row.iter().enumerate() {
        put_job(page, names.name(job), *minute)?;
    }
    Ok(())
}

// How many jobs of a case are done.
fn count_done(row: &[i32]) -> usize
    ensures { result ≡ jobs_done row.now (length row.now) }
{
    row.iter().filter(|minute| **minute >= 0).count()
}

// Puts a case: its number of jobs done, and their lines.
fn put_case(page: &mut Page, names: Names<'_>, case: u8, row: &[i32]) -> Result<(), AllocError>
    ensures put { OnOk result (page.new ≡ page.old ++ case_lines (name names.entry) (length row.now) case row.now) }
    ensures short { OnOk result
        (length (case_lines (name names.entry) (length row.now) case row.now) ≤ 35 + 20 * length row.now) }
{
    let done = count_done(row);
    write!(page, "case {case} jobs {done}\n")?;
    put_jobs(page, names, row)
}

// Puts all cases.
fn put_cases(page: &mut Page, plan: Plan<'_>, minutes: &[i32]) -> Result<(), AllocError>
    requires room { size (held plan.book.now) ≤ length minutes.now }
    ensures put { let b = held plan.entry.book.now in OnOk result
        (page.new ≡ page.old ++ cases_lines (name plan.entry.names) (length b.jobs) minutes.now (cases b)) }
    ensures short { let b = held plan.entry.book.now in OnOk result
        (length (cases_lines (name plan.entry.names) (length b.jobs) minutes.now (cases b)) ≤ 6960) }
{
    let jobs = plan.book.jobs().len();
    for case in 0..plan.book.cases() {
        let start = case as usize * jobs;
        put_case(page, plan.names, case, &minutes[start..start + jobs])?;
    }
    Ok(())
}

// Puts the table of a grade.
pub(crate) fn put_table(
    page: &mut Page,
    plan: Plan<'_>,
    grade: Grade,
    minutes: &[i32; 320],
) -> Result<(), AllocError>
    ensures put { let b = held plan.entry.book.now in OnOk result (page.new ≡
        page.old ++ table_lines grade (name plan.entry.names) (length b.jobs) (take (size b) minutes.now) (cases b)) }
    ensures short { let b = held plan.entry.book.now in OnOk result (length
        (table_lines grade (name plan.entry.names) (length b.jobs) (take (size b) minutes.now) (cases b)) ≤ 7000) }
{
    let cases = plan.book.cases();
    let size = cases as usize * plan.book.jobs().len();
    write!(page, "table {grade}\ncases {cases}\n")?;
    let minutes = &minutes[..size];
    put_cases(page, plan, minutes)
}

// Puts the line of an origin.
fn put_origin(page: &mut Page, plan: Plan<'_>, origin: Origin) -> Result<(), AllocError>
    requires known { Within (held plan.book.now) origin }
    ensures { OnOk result (page.new ≡
        page.old ++ origin_line (held plan.entry.book.now) (name plan.entry.names) origin) }
{
    match origin {
        Origin::Bound(n) => write!(page, "bound {n}\n"),
        Origin::Start(job) => {
            page.push(b"start ")?;
            page.push(plan.names.name(job))?;
            page.push(b"\n")
        }
        Origin::Check(check, job) => {
            let asking = plan.book.check_job(check as u8).unwrap();
            page.push(b"check ")?;
            page.push(plan.names.name(asking))?;
            page.push(b" ")?;
            page.push(plan.names.name(job))?;
            page.push(b"\n")
        }
    }
}

// Puts the lines of origins.
fn put_origins(page: &mut Page, plan: Plan<'_>, origins: &[Origin]) -> Result<(), AllocError>
    requires known { All (Within (held plan.book.now)) origins.now }
    ensures { OnOk result (page.new ≡
        page.old ++ origin_lines (held plan.entry.book.now) (name plan.entry.names) origins.now (length origins.now)) }
{
    for origin in origins {
        put_origin(page, plan, *origin)?;
    }
    Ok(())
}

// Puts a failing case and a loop of its rules.
pub(crate) fn put_loop(
    page: &mut Page,
    plan: Plan<'_>,
    case: u8,
    origins: &[Origin],
) -> Result<(), AllocError>
    requires known { All (Within (held plan.book.now)) origins.now }
    ensures { OnOk result (page.new ≡
        page.old ++ loop_lines (held plan.entry.book.now) (name plan.entry.names) case origins.now) }
{
    let length = origins.len();
    write!(page, "fails {case}\nloop {length}\n")?;
    put_origins(page, plan, origins)
}
