// The log of a run.
ghost use Rattle.std.specs.Prelude.{◌≡◌, ◌^◌, ◌≤◌, reverse, length};
ghost use Rattle.walks.specs.Logs.{just_told, all_told};
ghost use Rattle.walks.specs.Standing.{heard_set, yes_set, time as time_of};

use arrayvec::ArrayVec;
use walks::parts::Event;

// The events of a run in the order in which they came, with what they come to: the sets of the checks reported and of those reported
// yes, of the jobs told last and of all jobs told, and the minute after the last one told.
#[derive(Drop)]
pub struct Log {
    pub(crate) events: ArrayVec<Event, 24>,
    pub(crate) heard: u8,
    pub(crate) yes: u8,
    pub(crate) just: u32,
    pub(crate) told: u32,
    pub(crate) time: u64,
    ghost few: { length events.items ≤ 24 },
    ghost early: { time ≤ 2 ^ 32 },
    ghost heard_is: { heard ≡ heard_set (reverse events.items) },
    ghost yes_is: { yes ≡ yes_set (reverse events.items) },
    ghost just_is: { just ≡ just_told (reverse events.items) },
    ghost told_is: { told ≡ all_told (reverse events.items) },
    ghost time_is: { time ≡ time_of (reverse events.items) },
}
