// How a log grows, and how it is read.
ghost use Rattle.std.specs.Prelude.{◌≡◌, ◌<◌, [], ◌∷◌, reverse, length};
ghost use Rattle.walks.specs.declared.parts.Event.TheVariants.{Told, Reported};
ghost use Rattle.runs.specs.Recorded.{recorded};

use crate::log::Log;
use arrayvec::ArrayVec;
use walks::parts::{Event, Report, Telling};

impl Log {
    // The log of a run that has not begun.
    pub(crate) fn new() -> Log
        ensures { recorded result ≡ [] }
    {
        Log {
            events: ArrayVec::new(),
            heard: 0,
            yes: 0,
            just: 0,
            told: 0,
            time: 0,
        }
    }

    // One telling more.
    pub(crate) fn tell(&mut self, telling: Telling)
        requires room { length (recorded self.old) < 24 }
        ensures { recorded self.new ≡ Told telling ∷ recorded self.old }
    {
        self.events.push(Event::Told(telling));
        self.just = telling.jobs;
        self.told |= telling.jobs;
        self.time = u64::from(telling.minute) + 1;
    }

    // One report more.
    pub(crate) fn report(&mut self, report: Report)
        requires room { length (recorded self.old) < 24 }
        requires low { report.check < 8 }
        ensures { recorded self.new ≡ Reported report ∷ recorded self.old }
    {
        let bit = 1u8 << report.check;
        self.events.push(Event::Reported(report));
        self.heard |= bit;
        if report.yes {
            self.yes |= bit;
        }
    }

    // The events in the order in which they came.
    pub fn events(&self) -> &[Event]
        ensures { reverse result.now ≡ recorded self.now }
    {
        self.events.as_slice()
    }
}
