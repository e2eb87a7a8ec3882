// A row of a table of stations (document 02, Six): it holds the station that was joined there, or is free.
#![tactic(auto)]

mod hearing;
mod places;
mod ticking;

ghost use Rattle.std.specs.Prelude.{◌≡◌};
ghost use Rattle.frame.specs.Allowed.{ReceivedAllowed};
ghost use Rattle.row.specs.Rows.{free, seated, is_of, ValidRow, row_ticked, row_heard};

use answer::Fault;
use frame::Received;
pub use hearing::hear_all;
pub use places::{free_place, place_of};
use station::Station;
pub use ticking::{tick, tick_all};

// How many rows a table has.
pub const ROWS: usize = 16;

// Where it is free, `station` is one fixed station that no call may be handed. Kept as a flag beside it: the edit `old_schedules_kept`, which must
// fail, needs a station in a row that is free.
// Kept: `ValidRow` and `ValidRows` stand in the contracts, as `Valid` does: the fields are public.
#[derive(Clone, Copy)]
pub struct Row {
    pub joined: bool,
    pub station: Station,
}

impl Row {
    // Nothing of a station that sat here is left.
    pub fn free() -> Row
        ensures { result ≡ free }
    {
        Row {
            joined: false,
            station: Station::nobody(),
        }
    }

    // A station sits here from now on, and nothing is left of what the row held.
    pub fn taken_by(mut self, station: Station) -> Row
        ensures { result ≡ seated station }
    {
        self.joined = true;
        self.station = station;
        self
    }

    // Its station leaves, and nothing of it stays.
    pub fn vacated(mut self) -> Row
        ensures { result ≡ free }
    {
        let nobody = Station::nobody();
        self.joined = false;
        self.station = nobody;
        self
    }

    // Whether the station of this address sits here.
    pub fn is_of(self, own: [u8; 6]) -> bool
        ensures { result ≡ is_of own self }
    {
        self.joined && own == self.station.own
    }

    // Kept beside hear: both are two lines after the same test, and one over a closure would promise by the closure.
    // What its station's advance by so many TU leaves, which is the same station where that is refused; a free row stays so.
    #[tactic(auto, unfolding(crate::specs::Rows::row_ticked))]
    pub fn advance(self, units: u32) -> Row
        requires { ValidRow self }
        ensures value { result ≡ row_ticked units self }
        ensures kept { ValidRow result }
    {
        if !self.joined {
            return self;
        }
        Row {
            joined: true,
            station: self.station.advance(units).station,
        }
    }

    // Its station hears what was read of a frame.
    #[tactic(auto, unfolding(crate::specs::Rows::row_heard))]
    pub fn hear(self, received: Result<Received, Fault>) -> Row
        requires { ValidRow self }
        ensures value { result ≡ row_heard received self }
        ensures kept { ReceivedAllowed self.station.interval received → ValidRow result }
    {
        if !self.joined {
            return self;
        }
        Row {
            joined: true,
            station: self.station.heard(received).station,
        }
    }
}
