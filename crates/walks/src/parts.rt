// What a log of a run is made of.
ghost use Rattle.std.specs.Prelude.{◌≡◌};
ghost use Rattle.walks.specs.declared.parts.Event.TheVariants.{Told};

// A minute, and the set of the jobs due in it: bit j is set for job j.
#[derive(Clone, Copy, PartialEq, Eq, Debug, Default)]
pub struct Telling {
    pub minute: u32,
    pub jobs: u32,
}

// The outcome of a check, as the crew reports it.
#[derive(Clone, Copy, PartialEq, Eq, Debug)]
pub struct Report {
    pub check: u8,
    pub yes: bool,
}

// What a log holds.
#[derive(Clone, Copy, PartialEq, Eq, Debug)]
pub enum Event {
    Told(Telling),
    Reported(Report),
}

// The telling of no job at minute 0: a list of fixed room holds it where it has no event yet. By hand, since a derive takes no case with a
// value.
impl Default for Event {
    ghost is_default = { λ e. e ≡ Told (record { minute = 0; jobs = 0 }) };

    fn default() -> Event {
        Event::Told(Telling::default())
    }
}
