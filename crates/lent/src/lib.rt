// A station that lives at one address (document 02, Eight): "the record is lent and changed there". Both calls are thin over those that take the station by
// value, which decide everything.
#![tactic(auto)]

ghost use Rattle.std.specs.Prelude.{◌≡◌};
ghost use Rattle.station.specs.Asking.{permission_of};
ghost use Rattle.station.specs.Clock.{advance_of};
ghost use Rattle.station.specs.Validity.{Valid};

use answer::Refusal;
use station::{Permission, Station};

// The clock goes on by so many TU; where that is refused the station that is lent stays as it was.
pub fn advance(station: &mut Station, units: u32) -> Result<(), Refusal>
    requires { Valid station.old }
    ensures value { (result ≡ (advance_of station.old units).answer) × (station.new ≡ (advance_of station.old units).station) }
    ensures kept { Valid station.new }
{
    let stepped = station.advance(units);
    *station = stepped.station;
    stepped.answer
}

// Whether the station that is lent may send for so many TU. It stays as it is.
pub fn ask(station: &mut Station, units: u32) -> Permission
    requires { Valid station.old }
    ensures { (result ≡ permission_of station.old units) × (station.new ≡ station.old) }
{
    station.ask(units)
}
