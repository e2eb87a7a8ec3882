// Taking a frame (document 01, "The station"; 802.11h 11.6.2 and 11.6.7).
ghost use Rattle.std.specs.Prelude.{List, ◌≡◌, ◌≤◌, length, take};
ghost use Rattle.beacon.specs.Beacons.{quiet_limit};
ghost use Rattle.element.specs.declared.quiet.Quiet.{Quiet};
ghost use Rattle.frame.specs.Allowed.{ReceivedAllowed};
ghost use Rattle.station.specs.CodeTerms.Changing.{changed};
ghost use Rattle.station.specs.Taking.{heard_of, take_of};
ghost use Rattle.station.specs.Validity.{Valid};

use crate::{Station, changing, replacing};
use answer::Fault;
use beacon::QUIETS;
use element::quiet::Quiet;
use frame::{Change, Received};

// The verdict on a frame, and the station after it: the same as before where the frame was refused.
// Kept beside one another: a refused call gives the station back, and `take_of` promises which. The field says whose state it is.
#[derive(Clone, Copy)]
pub struct Taken {
    pub verdict: Result<(), Fault>,
    pub station: Station,
}

// So many of the slots, or all of them where there are no more.
fn at_most_all(count: usize) -> usize
    ensures { (result ≤ quiet_limit) × ((qs : List Quiet) → length qs ≡ quiet_limit → take result qs ≡ take count qs) }
{
    count.min(QUIETS)
}

impl Station {
    // What a frame changes: all schedules, of which what has begun runs on, then the constraint, then the announcement, each if the frame has it. Every
    // frame takes this one way, and the station is put together once, at its end: a station is long to copy.
    fn changed(self, change: Change, quiets: [Quiet; QUIETS], count: usize) -> Station
        requires { Valid self }
        ensures { result ≡ changed self change (take count quiets) }
    {
        let extent = replacing::extent_of(
            changing::is_at_once(change.switch),
            change.replaces,
            self.count,
            at_most_all(count),
        );
        let next = replacing::replace(
            self.schedules,
            self.until,
            extent,
            quiets,
            self.clock,
            self.interval,
        );
        let rest = self
            .rest(next.until)
            .constrained(change.power)
            .announced(change.switch);
        self.with(rest, next.schedules, extent.used)
    }

    // What a reader handed out, so that one reading can serve several stations. A count past the slots is that of all of them.
    #[tactic(auto, unfolding(crate::specs::Taking::heard_means), using(crate::proofs::Received::heard_ways))]
    pub fn heard(self, received: Result<Received, Fault>) -> Taken
        requires { Valid self }
        ensures value { result ≡ heard_of self received }
        ensures kept { ReceivedAllowed self.interval received → Valid result.station }
    {
        match received {
            Err(fault) => Taken {
                verdict: Err(fault),
                station: self,
            },
            Ok(received) => {
                let change = Change::by_frame(received.frame);
                Taken {
                    verdict: Ok(()),
                    station: self.changed(change, received.quiets, received.count),
                }
            }
        }
    }

    #[tactic(auto, using(crate::proofs::Received::read_means, frame::proofs::Allowing::read_allowed))]
    pub fn take(self, frame: &[u8]) -> Taken
        requires { Valid self }
        ensures value { result ≡ take_of self frame.now }
        ensures kept { Valid result.station }
    {
        self.heard(frame::read(frame, self.own, self.ap, self.interval))
    }
}
