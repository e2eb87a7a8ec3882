// A station taken apart (document 01, "The station"): its quiet schedules stand in columns of numbers, which can be lent and changed where they are. A
// station is long to copy, and most of it is its schedules.
// Kept beside the calls by value: frames heard in place are quicker (docs/BENCHMARKS.md).
#![tactic(auto)]

mod columns;

ghost use Rattle.std.specs.Prelude.{◌≡◌, ◌/◌, ◌≤◌, take};
ghost use Rattle.answer.specs.Checks.{pick};
ghost use Rattle.beacon.specs.Beacons.{quiet_limit};
ghost use Rattle.station.specs.CodeTerms.Changing.{changed};
ghost use Rattle.station.specs.Rests.{at_once};
ghost use Rattle.station.specs.Starting.{blank};
ghost use Rattle.station.specs.Stations.{with_until};
ghost use Rattle.station.specs.Taking.{schedules_of, outlasting, rescheduled, constrained, announced_if};
ghost use Rattle.station.specs.Validity.{Valid};
ghost use Rattle.apart.specs.Apart.{apart_of, whole_of, HoldsSchedules, rows_heard, HeardAs};
ghost use Rattle.apart.specs.Columns.{rows_over};
ghost use Rattle.apart.specs.declared.columns.Columns.{Columns};

use answer::Fault;
use beacon::QUIETS;
pub use columns::Columns;
use element::channel_switch::ChannelSwitch;
use element::power_constraint::PowerConstraint;
use element::quiet::Quiet;
use frame::Hearing;
use station::{Rest, Station};

// What a station keeps beside its schedules, and how many of these are in use.
// Kept as a count beside the columns: there is no heap.
#[derive(Clone, Copy)]
pub struct Apart {
    pub own: [u8; 6],
    pub ap: [u8; 6],
    pub rest: Rest,
    pub count: usize,
}

// The verdict on a frame, and the station after it: the same as before where the frame was refused.
// Kept beside one another: a refused call gives the station back, and `HeardAs` promises which. The field says whose state it is.
#[derive(Clone, Copy)]
pub struct Told {
    pub verdict: Result<(), Fault>,
    pub apart: Apart,
}

// How many schedules are in use after an announcement, if there is one: the switch itself leaves none.
fn left_after(switch: Option<ChannelSwitch>, count: usize) -> usize
    ensures { result ≡ pick (at_once switch) 0 count }
{
    if station::is_at_once(switch) {
        return 0;
    }
    count
}

impl Apart {
    // Kept field by field, here and in `whole`: a Station in it would bring the schedules along, which are long to copy.
    // What a station keeps beside its schedules.
    fn beside(station: Station) -> Apart
        ensures { result ≡ apart_of station }
    {
        let own = station.own;
        let ap = station.ap;
        Apart {
            own,
            ap,
            rest: station.rest(station.until),
            count: station.count,
        }
    }

    // What stands where there is no station, whatever the columns hold.
    pub fn nobody() -> Apart
        ensures { (c : Columns) → whole_of result c ≡ blank }
    {
        Apart::beside(Station::nobody())
    }

    // A station, with its schedules in the columns.
    pub fn of(station: Station, columns: &mut Columns) -> Apart
        ensures value { result ≡ apart_of station }
        ensures holds_schedules { HoldsSchedules station columns.new }
        ensures rows { columns.new ≡ rows_over station.schedules columns.old }
    {
        columns.hold(station.schedules);
        Apart::beside(station)
    }

    // The station whose schedules stand in the columns.
    pub fn whole(self, columns: &Columns) -> Station
        requires { self.count ≤ quiet_limit }
        ensures { result ≡ whole_of self columns.now }
    {
        let own = self.own;
        let ap = self.ap;
        let rest = self.rest;
        let power = rest.power;
        let pending = rest.pending;
        let schedules = columns.gather(self.count);
        Station {
            own,
            ap,
            interval: rest.interval,
            clock: rest.clock,
            channel: rest.channel,
            power,
            pending,
            schedules,
            count: self.count,
            until: rest.until,
        }
    }

    // The schedules of Quiet elements, so many, take the place of those there were: of these a run that has begun keeps its whole length, and of several
    // the latest end counts (document 02, Two).
    fn replaced(self, quiets: [Quiet; QUIETS], count: usize, columns: &mut Columns) -> Apart
        requires valid { Valid (whole_of self columns.old) }
        requires few { count ≤ quiet_limit }
        ensures station { let s = whole_of self columns.old in whole_of result columns.new ≡ rescheduled (with_until s (outlasting s)) (take count quiets) }
        ensures rows { columns.new ≡ rows_over (schedules_of (self.rest.clock / self.rest.interval) self.rest.interval (take count quiets)) columns.old }
    {
        let rest = self.rest;
        let until = columns.latest_end(self.count, rest.until, rest.clock);
        columns.set(quiets, count, rest.clock, rest.interval);
        Apart {
            rest: Rest { until, ..rest },
            count,
            ..self
        }
    }

    // A Power Constraint and an announcement, each if there is one.
    fn told(self, power: Option<PowerConstraint>, switch: Option<ChannelSwitch>) -> Apart
        ensures { (c : Columns) → whole_of result c ≡ announced_if (constrained (whole_of self c) power) switch }
    {
        Apart {
            rest: self.rest.constrained(power).announced(switch),
            count: left_after(switch, self.count),
            ..self
        }
    }

    // What was heard of a frame changes all schedules, of which what has begun runs on, then the constraint, then the announcement, each if the frame has
    // it.
    fn changed(self, hearing: Hearing, columns: &mut Columns) -> Apart
        requires valid { Valid (whole_of self columns.old) }
        requires few { hearing.count ≤ quiet_limit }
        ensures station { whole_of result columns.new ≡ changed (whole_of self columns.old) hearing.change (take hearing.count hearing.quiets) }
        ensures rows { columns.new ≡ rows_heard self hearing columns.old }
    {
        let change = hearing.change;
        if change.replaces {
            let replaced = self.replaced(hearing.quiets, hearing.count, columns);
            return replaced.told(change.power, change.switch);
        }
        self.told(change.power, change.switch)
    }

    // A frame, as `Station::take` takes it.
    pub fn hear(self, frame: &[u8], columns: &mut Columns) -> Told
        requires { Valid (whole_of self columns.old) }
        ensures { HeardAs frame.now self columns.old result columns.new }
    {
        match frame::hear(frame, self.own, self.ap, self.rest.interval) {
            Err(fault) => Told {
                verdict: Err(fault),
                apart: self,
            },
            Ok(hearing) => Told {
                verdict: Ok(()),
                apart: self.changed(hearing, columns),
            },
        }
    }
}
