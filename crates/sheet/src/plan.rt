// The sheet of a plan that was read. The lists are those that the verdicts are lent, so they are arrays beside one another.
ghost use Rattle.std.specs.Prelude.{OnOk};
ghost use Rattle.book.specs.Held.{held};
ghost use Rattle.format.specs.Named.{name};
ghost use Rattle.sheet.specs.Judged.{Judged, RestPut, SheetPut};

use crate::grade::Grade;
use crate::judge::judge;
use crate::lines::{put_loop, put_table};
use crate::verdict::Verdicts;
use format::names::Plan;
use page::Page;
use rules::parts::Origin;
use std::alloc::AllocError;
use verdicts::{DynamicAnswer, StrongAnswer, WeakAnswer};

// Puts what follows the verdicts: the table of the strongest grade with a yes, or the failing case with its loop.
fn put_rest(
    page: &mut Page,
    plan: Plan<'_>,
    said: Verdicts,
    minutes: &[i32; 320],
    origins: &[Origin; 20],
) -> Result<(), AllocError>
    requires judged { Judged (held plan.book.now) minutes.now origins.now said }
    ensures { OnOk result (RestPut (held plan.entry.book.now) (name plan.entry.names) said page.old page.new) }
{
    match said {
        Verdicts {
            strong: StrongAnswer::Yes,
            ..
        } => put_table(page, plan, Grade::Strong, minutes),
        Verdicts {
            dynamic: DynamicAnswer::Yes,
            ..
        } => put_table(page, plan, Grade::Dynamic, minutes),
        Verdicts {
            weak: WeakAnswer::Yes,
            ..
        } => put_table(page, plan, Grade::Weak, minutes),
        Verdicts {
            weak: WeakAnswer::No { case, length },
            ..
        } => { put_loop(page, plan, case, &origins[..length]) }
    }
}

// Puts the sheet of a plan.
pub(crate) fn put_plan(page: &mut Page, plan: Plan<'_>) -> Result<(), AllocError>
    ensures { OnOk result (SheetPut (held plan.entry.book.now) (name plan.entry.names) page.old page.new) }
{
    let mut minutes = [0i32; 320];
    let mut origins = [Origin::Start(0); 20];
    let said = judge(plan.book, &mut minutes, &mut origins);
    write!(page, "{said}")?;
    put_rest(page, plan, said, &minutes, &origins)
}
