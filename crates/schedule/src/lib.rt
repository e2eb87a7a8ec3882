// A quiet schedule (document 01, "The station"; 802.11h 7.3.2.23 and 11.6.2).
#![tactic(auto)]

ghost use Rattle.std.specs.Prelude.{◌≡◌, ◌-◌, ◌%◌, ◌≤◌};
ghost use Rattle.schedule.specs.Schedules.{set_by, covered, end_begun};
ghost use Rattle.schedule.specs.Units.{first_unit};

use element::quiet::Quiet;

// It covers `duration` TU from `start` on, and with a period over 0 again every `period` TU.
#[derive(Clone, Copy)]
pub struct Schedule {
    pub start: u64,
    pub period: u64,
    pub duration: u16,
}

impl Schedule {
    // The schedule that a Quiet element sets when so many whole beacon intervals have passed.
    // Every factor has a narrow type, so nothing wraps.
    pub fn set_by(quiet: Quiet, passed: u32, interval: u16) -> Schedule
        ensures { result ≡ set_by quiet passed interval }
    {
        let tbtt = (u64::from(passed) + u64::from(quiet.count)) * u64::from(interval);
        Schedule {
            start: tbtt + u64::from(quiet.offset),
            period: u64::from(quiet.period) * u64::from(interval),
            duration: quiet.duration,
        }
    }

    // How long before a unit the latest run began. With no period there is one run.
    fn since_latest(self, unit: u64) -> u64
        requires { self.start ≤ unit }
        ensures { result ≡ (unit - self.start) % self.period }
    {
        let into = unit - self.start;
        into.checked_rem(self.period).unwrap_or(into)
    }

    // The first covered unit from `from` on and before `to`, or the unit after them where none is. It is looked up, not looked for, so this costs the
    // same for one unit and for all of them.
    #[tactic(auto, using(crate::proofs::Covering::ways))]
    pub fn first_covered(self, from: u64, to: u64) -> u64
        ensures { result ≡ first_unit (covered self) from (to - from) }
    {
        if to <= from {
            return from;
        }
        if self.duration == 0 {
            return to;
        }
        if from < self.start {
            return self.start.min(to);
        }
        let past = self.since_latest(from);
        if past < u64::from(self.duration) {
            return from;
        }
        if self.period == 0 {
            return to;
        }
        from.saturating_add(self.period - past).min(to)
    }

    // The end of the latest run that has begun by a moment, or 0 where none has (document 02, Two). All runs last as long, so no other that has
    // begun ends later. The duration and the moment are narrow, so nothing wraps.
    #[tactic(auto, using(crate::proofs::Ends::begun_or_not))]
    pub fn end_begun(self, moment: u32) -> u64
        ensures { result ≡ end_begun self moment }
    {
        let now = u64::from(moment);
        if now < self.start {
            return 0;
        }
        now - self.since_latest(now) + u64::from(self.duration)
    }
}
