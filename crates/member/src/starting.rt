// Starting a station of an IBSS (document 02, Five; document 01, "Answer numbers", 15).
ghost use Rattle.std.specs.Prelude.{◌≡◌, IfOk};
ghost use Rattle.member.specs.Members.{start_of};
ghost use Rattle.member.specs.Validity.{ValidMember};

use crate::Member;
use answer::Refusal;
use station::Station;

impl Member {
    pub fn start(
        own: [u8; 6],
        bssid: [u8; 6],
        interval: u16,
        channel: u8,
    ) -> Result<Member, Refusal>
        ensures value { result ≡ start_of own bssid interval channel }
        ensures valid { IfOk result ValidMember }
    {
        Ok(Member {
            station: Station::start(own, bssid, interval, channel)?,
            owner: owner::unknown(),
        })
    }
}
