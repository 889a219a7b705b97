// Labels, compared as two sets of checks.
ghost use Rattle.std.specs.Prelude.{◌≡◌, ◌<◌, ◌&&◌, Decides, nat_le};
ghost use Rattle.book.specs.Labels.{Meets, names, any_below};
ghost use Rattle.book.specs.Plain.{both_ways, lacks, exclude};

use crate::parts::Label;

impl Label {
    // Whether the case says what the label wants of each check.
    pub fn meets(self, case: u8) -> bool
        ensures { Decides result (Meets self case) }
    {
        (self.yes & case == self.yes) & (case & self.no == 0)
    }

    // Whether the label names check c.
    pub fn names(self, c: u8) -> bool
        ensures { result ≡ names self c }
    {
        c < 8 && ((self.yes | self.no) >> c) % 2 == 1
    }

    // Whether the label names a check from this number on.
    pub(crate) fn names_from(self, checks: u8) -> bool
        requires few { checks < 8 }
        ensures { result ≡ any_below 8 (λ k. names self k && nat_le checks k) }
    {
        (self.yes | self.no) >> checks != 0
    }

    // Whether the label wants a check both yes and no.
    pub(crate) fn wants_both(self) -> bool
        ensures { result ≡ both_ways self }
    {
        self.yes & self.no != 0
    }

    // Whether the label lacks part of another.
    pub(crate) fn lacks(self, part: Label) -> bool
        ensures { result ≡ lacks self part }
    {
        (part.yes & self.yes != part.yes) | (part.no & self.no != part.no)
    }

    // Whether one label wants yes of a check of which the other wants no.
    pub(crate) fn excludes(self, other: Label) -> bool
        ensures { result ≡ exclude self other }
    {
        (self.yes & other.no != 0) | (self.no & other.yes != 0)
    }
}
