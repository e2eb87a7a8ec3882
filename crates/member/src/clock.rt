// The clock of a station of an IBSS (document 02, Five): the station's own, and the TBTTs that pass.
ghost use Rattle.std.specs.Prelude.{◌≡◌, ◌≤◌, ◌/◌, ◌-◌};
ghost use Rattle.member.specs.Members.{advance_of};
ghost use Rattle.member.specs.Validity.{ValidMember};

use crate::Member;
use answer::Refusal;

// The answer, and the station after the call: the same as before where the call was refused.
// Kept beside one another: a refused call gives the station back, and `advance_of` promises which. The field says whose state it is.
#[derive(Clone, Copy)]
pub struct Stepped {
    pub answer: Result<(), Refusal>,
    pub member: Member,
}

// How many TBTTs lie after one moment and no later than another.
// Kept: that the interval is not 0 stands in the contract: a station's field holds 0 in `nobody`.
fn tbtts_between(moment: u32, later: u32, interval: u16) -> u32
    requires { (1 ≤ interval) × (moment ≤ later) }
    ensures { result ≡ later / interval - moment / interval }
{
    let before = moment / u32::from(interval);
    later / u32::from(interval) - before
}

impl Member {
    // A refused advance leaves the clock where it is, so that no TBTT passes.
    #[tactic(auto, using(crate::proofs::Passing::clock_on))]
    pub fn advance(self, units: u32) -> Stepped
        requires { ValidMember self }
        ensures value { result ≡ advance_of self units }
        ensures kept { ValidMember result.member }
    {
        let station = self.station;
        let stepped = station.advance(units);
        let past = owner::past(
            self.owner,
            tbtts_between(station.clock, stepped.station.clock, station.interval),
        );
        Stepped {
            answer: stepped.answer,
            member: Member {
                station: stepped.station,
                owner: past,
            },
        }
    }
}
