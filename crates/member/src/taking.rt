// Taking a frame in an IBSS (document 02, Five; 802.11h 11.6.7.2).
ghost use Rattle.std.specs.Prelude.{not, ◌&&◌, ◌≡◌};
ghost use Rattle.answer.specs.Checks.{pick};
ghost use Rattle.member.specs.CodeTerms.Readings.{announces, is_beacon, owner_named};
ghost use Rattle.member.specs.Members.{take_of};
ghost use Rattle.member.specs.Validity.{ValidMember};
ghost use Rattle.owner.specs.Owners.{is_owner, heard_from};

use crate::Member;
use answer::{Fault, Refusal};
use element::ibss_dfs::IbssDfs;
use frame::{Frame, Received};
use owner::Owner;

// The verdict on a frame, and the station after it: the same as before where the frame was refused.
// Kept beside one another: a refused call gives the station back, and `take_of` promises which. The field says whose state it is.
// The edit `refused_names`, which must fail, needs a station beside a refusal.
#[derive(Clone, Copy)]
pub struct Taken {
    pub verdict: Result<(), Fault>,
    pub member: Member,
}

// Whether what was read has an announcement.
// Kept as a match: the edits `another_obeyed` and `foreign_before_broken`, which must fail, change its lines.
fn announces(received: Result<Received, Fault>) -> bool
    ensures { result ≡ announces received }
{
    match received {
        Err(_broken) => false,
        Ok(received) => match received.frame {
            Frame::Beacon(notice) => notice.switch.is_some(),
            Frame::ProbeResponse(notice) => notice.switch.is_some(),
            Frame::ChannelSwitch(_) => true,
            _ => false,
        },
    }
}

// Whether it is a beacon: nothing else is one from the owner.
fn is_beacon(received: Result<Received, Fault>) -> bool
    ensures { result ≡ is_beacon received }
{
    received.is_ok_and(|received| matches!(received.frame, Frame::Beacon(_)))
}

// The owner that a beacon's element 41 names, or the one before.
fn named_by(owner: Option<Owner>, dfs: Option<IbssDfs>) -> Option<Owner>
    ensures { result ≡ owner_named owner dfs }
{
    match dfs {
        None => owner,
        Some(dfs) => Some(owner::named(owner, dfs.owner, dfs.recovery)),
    }
}

// An announcement by any but a known owner.
fn is_foreign(received: Result<Received, Fault>, owner: Option<Owner>, sender: [u8; 6]) -> bool
    ensures { result ≡ (announces received && not (is_owner owner sender)) }
{
    announces(received) && !owner::is_owner(owner, sender)
}

// The owner after a frame that was accepted: a beacon is heard from its sender.
fn heard_by(
    owner: Option<Owner>,
    received: Result<Received, Fault>,
    sender: [u8; 6],
) -> Option<Owner>
    ensures { result ≡ pick (is_beacon received) (heard_from owner sender) owner }
{
    if is_beacon(received) {
        return owner::heard_from(owner, sender);
    }
    owner
}

impl Member {
    // Element 41 comes before the announcement of its own beacon, and 23 after everything else.
    #[tactic(auto, unfolding(crate::specs::Members::member_takes), using(crate::proofs::Following::ways))]
    pub fn take(self, frame: &[u8]) -> Taken
        requires { ValidMember self }
        ensures value { result ≡ take_of self frame.now }
        ensures kept { ValidMember result.member }
    {
        let station = self.station;
        let owner = self.owner;
        let heard = frame::read_in_ibss(frame, station.own, station.ap, station.interval);
        let received = heard.received;
        let sender = heard.sender;
        let named = named_by(owner, heard.dfs);
        if is_foreign(received, named, sender) {
            let member = self;
            return Taken {
                verdict: Err(Fault::nowhere(Refusal::ForeignAnnouncement)),
                member,
            };
        }
        let taken = station.heard(received);
        Taken {
            verdict: taken.verdict,
            member: Member {
                station: taken.station,
                owner: heard_by(named, received, sender),
            },
        }
    }
}
