// Replacing the quiet schedules (document 01, "The station"; document 02, Two).
ghost use Rattle.std.specs.Prelude.{◌≡◌, ◌/◌, ◌≤◌, ltb, take};
ghost use Rattle.answer.specs.Checks.{pick};
ghost use Rattle.beacon.specs.Beacons.{quiet_limit};
ghost use Rattle.schedule.specs.Schedules.{set_by};
ghost use Rattle.station.specs.CodeTerms.Changing.{extent_of, overlaid};
ghost use Rattle.station.specs.Stations.{no_schedule, slotted};
ghost use Rattle.station.specs.Taking.{schedules_of, later, latest_end};

use crate::Station;
use beacon::QUIETS;
use element::quiet::Quiet;
use schedule::Schedule;

// How far the slots are gone through, and how many are in use after that.
// Kept: that no count is over the number of slots stands in the contracts: a type of its own would
// be taken apart at each slice and each index.
#[derive(Clone, Copy)]
pub struct Extent {
    pub top: usize,
    pub used: usize,
}

// Where so many slots are in use and so many Quiet elements are heard. A switch at once leaves no schedule, and what replaces none leaves them all.
pub fn extent_of(switches: bool, replaces: bool, before: usize, count: usize) -> Extent
    ensures { result ≡ extent_of switches replaces before count }
{
    let (top, used) = if switches {
        (before, 0)
    } else if replaces {
        (before.max(count), count)
    } else {
        (0, before)
    };
    Extent { top, used }
}

// The later of two moments.
pub fn later(one: u64, other: u64) -> u64
    ensures { result ≡ later one other }
{
    one.max(other)
}

// What a slot holds of which so many are in use: the schedule that its Quiet element sets, or nothing.
fn slot_of(quiet: Quiet, slot: usize, used: usize, passed: u32, interval: u16) -> Schedule
    ensures { result ≡ pick (ltb slot used) (set_by quiet passed interval) no_schedule }
{
    if slot < used {
        return Schedule::set_by(quiet, passed, interval);
    }
    Station::NO_SCHEDULE
}

// The schedules, and until when it stays quiet by what runs on of those that they replaced.
#[derive(Clone, Copy)]
pub struct Replaced {
    pub schedules: [Schedule; QUIETS],
    pub until: u64,
}

// The schedules of Quiet elements take the place of those there were, slot by slot: of these a run that has begun keeps its whole length, and of
// several the latest end counts (document 02, Two). A blank slot ends nothing. It is one pass over one copy, since the schedules are long to copy.
// Kept: that the interval is not 0 stands in the contract: a station's field holds 0 in `nobody`.
pub fn replace(
    schedules: [Schedule; QUIETS],
    until: u64,
    extent: Extent,
    quiets: [Quiet; QUIETS],
    clock: u32,
    interval: u16,
) -> Replaced
    requires { (1 ≤ interval) × (extent.top ≤ quiet_limit) × (extent.used ≤ quiet_limit) }
    ensures schedules_value { result.schedules ≡ overlaid extent.top (slotted (schedules_of (clock / interval) interval (take extent.used quiets))) schedules }
    ensures until_value { result.until ≡ latest_end clock until (take extent.top schedules) }
{
    let passed = clock / u32::from(interval);
    let mut slots = schedules;
    let mut latest = until;
    for slot in 0..extent.top {
        latest = later(latest, slots[slot].end_begun(clock));
        slots[slot] = slot_of(quiets[slot], slot, extent.used, passed, interval);
    }
    Replaced {
        schedules: slots,
        until: latest,
    }
}
