// The run sheet.
ghost use Rattle.std.specs.Prelude.{◌≡◌, length};
ghost use Rattle.book.specs.Held.{held};
ghost use Rattle.grades.specs.Grades.{Dynamic, Earliest};
ghost use Rattle.walks.specs.Ready.{read, Shown};

use book::keeping::Book;

// A plan book, and the minutes of its earliest dynamic strategy, case by case and by job number.
// The minutes are an array filled in part: the calls on a run want no memory, and a verdict fills the list that it is lent.
#[derive(Drop)]
pub struct RunSheet {
    pub(crate) book: Book,
    pub(crate) minutes: [i32; 320],
    ghost sized: { length minutes ≡ 320 },
    ghost shown: { Shown (held book) minutes },
    ghost earliest: { ∥ Earliest (held book) (Dynamic (held book)) (read (held book) minutes) ∥₁ },
}

// What make ready answers: an enum whose names speak, as every call answers, since a no is an answer and no error.
#[derive(Clone, Copy, PartialEq, Eq, Debug)]
pub enum Readiness {
    Yes,
    No,
}
