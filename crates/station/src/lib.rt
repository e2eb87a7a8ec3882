// The station (document 01, "The station"; 802.11h 11.6.2 and 11.6.7).
#![tactic(auto)]

mod asking;
mod changing;
mod clock;
mod replacing;
mod starting;
mod taking;

ghost use Rattle.std.specs.Prelude.{◌≡◌};
ghost use Rattle.station.specs.Clock.{switched};
ghost use Rattle.station.specs.CodeTerms.Changing.{with_rest};
ghost use Rattle.station.specs.Rests.{rest_of};

pub use asking::Permission;
pub use changing::{Rest, is_at_once};
pub use clock::{Advanced, Stepped, advance_clock};
use element::power_constraint::PowerConstraint;
use pending::Switch;
pub use replacing::later;
use schedule::Schedule;
pub use taking::Taken;

// What one station keeps between calls. The first `count` slots are the quiet schedules in use, the others are blank. Before `until` it is quiet by
// what had begun of schedules that were replaced: the latest end counts, and 0 says that nothing runs on (document 02, Two).
// Kept: `Valid` stands in the contracts and not in the type, since the fields are public and `nobody` is no valid station.
// The schedules are kept as an array and a count: there is no heap.
#[derive(Clone, Copy)]
pub struct Station {
    pub own: [u8; 6],
    pub ap: [u8; 6],
    pub interval: u16,
    pub clock: u32,
    pub channel: u8,
    pub power: Option<PowerConstraint>,
    pub pending: Option<Switch>,
    pub schedules: [Schedule; Station::SCHEDULE_LIMIT],
    pub count: usize,
    pub until: u64,
}

impl Station {
    // The last moment that the clock tells, in TU.
    pub const CLOCK_LIMIT: u32 = 4294967295;

    // How many quiet schedules there may be.
    pub const SCHEDULE_LIMIT: usize = beacon::QUIETS;

    // The highest channel.
    pub const CHANNEL_LIMIT: u8 = channel::HIGHEST;

    // The longest advance and the longest question, in TU.
    pub const UNIT_LIMIT: u32 = 65535;

    // What a slot holds that is not in use.
    pub const NO_SCHEDULE: Schedule = Schedule {
        start: 0,
        period: 0,
        duration: 0,
    };

    // Kept field by field, here and in `with`: callers and theorems name the fields of a Station, of which a Rest is a part.
    // What it keeps beside its addresses and its schedules, where it stays quiet until then.
    pub fn rest(self, until: u64) -> Rest
        ensures { result ≡ rest_of self until }
    {
        Rest {
            interval: self.interval,
            clock: self.clock,
            channel: self.channel,
            power: self.power,
            pending: self.pending,
            until,
        }
    }

    // Another rest, and so many schedules in their slots; the settings and the clock never change by a frame.
    fn with(
        self,
        rest: Rest,
        schedules: [Schedule; Station::SCHEDULE_LIMIT],
        count: usize,
    ) -> Station
        ensures { result ≡ with_rest self rest schedules count }
    {
        Station {
            channel: rest.channel,
            power: rest.power,
            pending: rest.pending,
            schedules,
            count,
            until: rest.until,
            ..self
        }
    }

    // On another channel nothing of the old one holds, nor any schedule.
    fn switched(self, channel: u8) -> Station
        ensures { result ≡ switched self channel }
    {
        let none = [Station::NO_SCHEDULE; Station::SCHEDULE_LIMIT];
        self.with(self.rest(self.until).switched(channel), none, 0)
    }
}
