// The three grades of a plan, strongest first.
use std::fmt;

#[derive(Clone, Copy, Debug, PartialEq, Eq)]
pub enum Grade {
    Strong,
    Dynamic,
    Weak,
}

// The word of a grade.
impl fmt::Display for Grade {
    ghost use Rattle.std.specs.Prelude.{Some};
    ghost use Rattle.sheet.specs.Sheet.{grade_word};

    ghost output = { λ grade. Some (grade_word grade) };

    fn fmt<W: fmt::Write>(&self, f: &mut fmt::Formatter<W>) -> fmt::Result {
        f.write_str(match self {
            Grade::Strong => "strong",
            Grade::Dynamic => "dynamic",
            Grade::Weak => "weak",
        })
    }
}
