// A station of an IBSS (document 02, Five; 802.11h 11.6.7.2): document 01's station, and the DFS owner that it follows.
#![tactic(auto)]

mod clock;
mod starting;
mod taking;

ghost use Rattle.std.specs.Prelude.{◌≡◌};
ghost use Rattle.member.specs.Validity.{ValidMember};
ghost use Rattle.station.specs.Asking.{permission_of};

pub use clock::Stepped;
use owner::Owner;
use station::{Permission, Station};
pub use taking::Taken;

// The station keeps and answers what document 01 says, with the BSSID for its AP.
// Kept: `ValidMember` stands in the contracts, as `Valid` of a station: the fields are public.
#[derive(Clone, Copy)]
pub struct Member {
    pub station: Station,
    pub owner: Option<Owner>,
}

impl Member {
    // Whether it may send for so many TU. Who the owner is takes no part.
    pub fn ask(self, units: u32) -> Permission
        requires { ValidMember self }
        ensures { result ≡ permission_of self.station units }
    {
        self.station.ask(units)
    }
}
