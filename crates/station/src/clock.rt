// The clock (document 01, "The station"): it advances, and reaches a pending switch on the way.
ghost use Rattle.std.specs.Prelude.{◌≡◌};
ghost use Rattle.station.specs.Clock.{clock_advance, advanced_to, advance_of};
ghost use Rattle.station.specs.Stations.{with_clock};
ghost use Rattle.station.specs.Validity.{Valid};

use crate::Station;
use answer::Refusal;
use pending::Switch;

// What an advance comes to that is not refused: the clock goes to a moment, with no switch reached by then or with this one.
#[derive(Clone, Copy)]
pub enum Advanced {
    Goes(u32),
    Switches { moment: u32, channel: u8 },
}

// An advance by what it asks of a station alone, since a station is long to copy and most advances change no more than its clock.
#[tactic(auto, unfolding(crate::specs::Clock::clock_advance, answer::specs::Checks::checked))]
pub fn advance_clock(clock: u32, pending: Option<Switch>, units: u32) -> Result<Advanced, Refusal>
    ensures { result ≡ clock_advance clock pending units }
{
    if Station::UNIT_LIMIT < units || Station::CLOCK_LIMIT - clock < units {
        return Err(Refusal::PastClock);
    }
    let moment = clock + units;
    match pending {
        Some(switch) if switch.at <= u64::from(moment) => Ok(Advanced::Switches {
            moment,
            channel: switch.channel,
        }),
        _ => Ok(Advanced::Goes(moment)),
    }
}

// The answer, and the station after the call: the same as before where the call was refused.
// Kept beside one another: a refused call gives the station back, and `advance_of` promises which. The field says whose state it is.
#[derive(Clone, Copy)]
pub struct Stepped {
    pub answer: Result<(), Refusal>,
    pub station: Station,
}

impl Station {
    // The clock tells another moment.
    fn with_clock(self, moment: u32) -> Station
        ensures { result ≡ with_clock self moment }
    {
        Station {
            clock: moment,
            ..self
        }
    }

    // What an advance makes of the station.
    fn advanced_to(self, advanced: Advanced) -> Station
        ensures { result ≡ advanced_to self advanced }
    {
        match advanced {
            Advanced::Goes(moment) => self.with_clock(moment),
            Advanced::Switches { moment, channel } => self.with_clock(moment).switched(channel),
        }
    }

    #[tactic(auto, unfolding(crate::specs::Clock::advance_means), using(crate::proofs::StaysValid::still_valid))]
    pub fn advance(self, units: u32) -> Stepped
        requires { Valid self }
        ensures value { result ≡ advance_of self units }
        ensures kept { Valid result.station }
    {
        match advance_clock(self.clock, self.pending, units) {
            Err(refusal) => Stepped {
                answer: Err(refusal),
                station: self,
            },
            Ok(advanced) => Stepped {
                answer: Ok(()),
                station: self.advanced_to(advanced),
            },
        }
    }
}
