// The three verdicts on a plan, with the minutes of the strongest grade that has a yes. The lists are lent to the verdicts, so they are
// arrays beside them.
ghost use Rattle.book.specs.Held.{held};
ghost use Rattle.sheet.specs.Judged.{Judged};

use crate::verdict::Verdicts;
use book::keeping::Book;
use rules::parts::Origin;
use verdicts::{dynamic, strong, weak};

// Asks for the three verdicts, the weakest first: each yes writes its minutes over those before. A no of the weak leaves the
// origins of its loop; the loop of a strong no is not wanted.
pub(crate) fn judge(book: &Book, minutes: &mut [i32; 320], origins: &mut [Origin; 20]) -> Verdicts
    ensures { Judged (held book.now) minutes.new origins.new result }
{
    let weak = weak(book, minutes, origins).unwrap();
    let dynamic = dynamic(book, minutes).unwrap();
    let mut spare = [Origin::Start(0); 20];
    let strong = strong(book, minutes, &mut spare).unwrap();
    Verdicts {
        strong,
        dynamic,
        weak,
    }
}
