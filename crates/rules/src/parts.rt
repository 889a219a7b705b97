// What rules are made of.
ghost use Rattle.std.specs.Prelude.{◌≡◌};
ghost use Rattle.rules.specs.declared.parts.Origin.TheVariants.{Start};

// One way to keep a rule: so many minutes after a place, or before it where the minutes are below 0.
#[derive(Clone, Copy, Debug, PartialEq, Eq)]
pub struct Alternative {
    pub place: usize,
    pub minutes: i32,
}

// Where a rule of a plan comes from: a bound by its number, the rule that a job comes after `start`, or the rule that
// a job comes after a check of its label.
#[derive(Clone, Copy, Debug, PartialEq, Eq)]
pub enum Origin {
    Bound(usize),
    Start(usize),
    Check(usize, usize),
}

// What a list of origins has where none was written yet. By hand, since a derive takes no case with a value.
impl Default for Origin {
    ghost is_default = { λ o. o ≡ Start 0 };

    fn default() -> Origin {
        Origin::Start(0)
    }
}
