// The plan of the worked examples, written down in a book.
ghost use Rattle.std.specs.Prelude.{◌≡◌, IfOk};
ghost use Rattle.book.specs.declared.parts.Call.TheVariants.{AddBound};
ghost use Rattle.book.specs.Held.{held};
ghost use Rattle.examples.specs.Plans.{wet_hole as wet_hole_plan};

use book::keeping::Book;
use book::list::carry_out;
use book::parts::{Bound, Call, Kind, Label};
use std::alloc::{AllocError, Global};

// The call that adds a bound. Programs and tests that have one alike stand on other crates.
fn bound(kind: Kind, first: usize, second: usize, minutes: i32) -> Call
    ensures { result ≡ AddBound (record { kind = kind; first = first; second = second; minutes = minutes }) }
{
    Call::AddBound(Bound {
        kind,
        first,
        second,
        minutes,
    })
}

// The book of a hole that may be wet: `start`, the check `wet`, `pump` on a yes of it, `grout`, and `seal` on a no.
pub fn wet_hole(heap: Global) -> Result<Book, AllocError>
    ensures { IfOk result (λ b. held b ≡ wet_hole_plan) }
{
    let calls = [
        Call::AddCheck(Label { yes: 0, no: 0 }),
        Call::AddJob(Label { yes: 1, no: 0 }),
        Call::AddJob(Label { yes: 0, no: 0 }),
        Call::AddJob(Label { yes: 0, no: 1 }),
        bound(Kind::Least, 0, 1, 60),
        bound(Kind::Least, 1, 2, 5),
        bound(Kind::Least, 2, 3, 90),
        bound(Kind::Most, 1, 4, 20),
        bound(Kind::Most, 4, 3, 10),
    ];
    Ok(carry_out(heap, &calls)?.book)
}
