// Quiet schedules in columns of numbers, which are lent and changed where they are: a station is long to copy, and most of it is its schedules.
ghost use Rattle.std.specs.Prelude.{◌≡◌, ℕ, ◌<◌, ◌≤◌, ◌/◌, take};
ghost use Rattle.beacon.specs.Beacons.{quiet_limit};
ghost use Rattle.station.specs.Stations.{slotted};
ghost use Rattle.station.specs.Taking.{schedules_of, latest_end};
ghost use Rattle.apart.specs.Columns.{schedule_at, schedules_in, with_row, rows_over};

use beacon::QUIETS;
use element::quiet::Quiet;
use schedule::Schedule;
use station::Station;

// A row is a schedule, and every slot of a station has its row. Kept as columns: the edit `period_for_start`, which must fail, needs a column of starts.
#[derive(Clone, Copy)]
pub struct Columns {
    pub starts: [u64; QUIETS],
    pub periods: [u64; QUIETS],
    pub durations: [u16; QUIETS],
}

impl Columns {
    pub const BLANK: Columns = Columns {
        starts: [0; QUIETS],
        periods: [0; QUIETS],
        durations: [0; QUIETS],
    };

    // The schedule of a row.
    fn schedule_at(&self, row: usize) -> Schedule
        requires { row < quiet_limit }
        ensures { result ≡ schedule_at self.now row }
    {
        Schedule {
            start: self.starts[row],
            period: self.periods[row],
            duration: self.durations[row],
        }
    }

    // A schedule goes into its row.
    fn put(&mut self, row: usize, schedule: Schedule)
        requires { row < quiet_limit }
        ensures { self.new ≡ with_row self.old row schedule }
    {
        self.starts[row] = schedule.start;
        self.periods[row] = schedule.period;
        self.durations[row] = schedule.duration;
    }

    // All schedules go into the columns.
    pub(crate) fn hold(&mut self, schedules: [Schedule; QUIETS])
        ensures schedules { (n : ℕ) → n ≤ quiet_limit → schedules_in n self.new ≡ take n schedules }
        ensures rows { self.new ≡ rows_over schedules self.old }
    {
        for row in 0..QUIETS {
            self.put(row, schedules[row]);
        }
    }

    // The schedules of the first rows, so many, in their slots.
    pub(crate) fn gather(&self, count: usize) -> [Schedule; QUIETS]
        requires { count ≤ quiet_limit }
        ensures { result ≡ slotted (schedules_in count self.now) }
    {
        let mut schedules = [Station::NO_SCHEDULE; QUIETS];
        for row in 0..count {
            schedules[row] = self.schedule_at(row);
        }
        schedules
    }

    // The latest of an end and of those of the runs that have begun by a moment, of so many schedules.
    pub(crate) fn latest_end(&self, count: usize, until: u64, clock: u32) -> u64
        requires { count ≤ quiet_limit }
        ensures { result ≡ latest_end clock until (schedules_in count self.now) }
    {
        let mut latest = until;
        for row in 0..count {
            latest = station::later(latest, self.schedule_at(row).end_begun(clock));
        }
        latest
    }

    // The schedules that Quiet elements set, so many, go into the first rows.
    // Kept: that the interval is not 0 stands in the contract, as for `replace` of a station.
    pub(crate) fn set(&mut self, quiets: [Quiet; QUIETS], count: usize, clock: u32, interval: u16)
        requires { (1 ≤ interval) × (count ≤ quiet_limit) }
        ensures schedules { schedules_in count self.new ≡ schedules_of (clock / interval) interval (take count quiets) }
        ensures rows { self.new ≡ rows_over (schedules_of (clock / interval) interval (take count quiets)) self.old }
    {
        let passed = clock / u32::from(interval);
        for row in 0..count {
            self.put(row, Schedule::set_by(quiets[row], passed, interval));
        }
    }
}
