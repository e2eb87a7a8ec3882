// Frames as a station of an IBSS reads them (document 02, Five): document 01's, from any individual address, and the element 41 of a beacon
// beside them. In probe responses element 41 is skipped.
ghost use Rattle.std.specs.Prelude.{◌≡◌, ◌≤◌, length, List, ℕ, None};
ghost use Rattle.answer.specs.Faults.{placed_past};
ghost use Rattle.frame.specs.CodeTerms.InIbss.{heard_laid};
ghost use Rattle.frame.specs.IbssFrames.{kind_in_ibss, sent_in_ibss, ibss_frame_means, pair_of};
ghost use Rattle.frame.specs.IbssLaid.{ibss_laid};
ghost use Rattle.header.specs.Headers.{header_length};
ghost use Rattle.header.specs.declared.management.Subtype.{Subtype};
ghost use Rattle.measurement_body.specs.Bodies.{longest_body};

use crate::{Received, places};
use answer::{Fault, Refusal};
use beacon::HeardDfs;
use element::ibss_dfs::{ChannelMap, IbssDfs};
use header::{Cell, Subtype};

// What was received, who sent it, and the element 41 of a beacon, which names a DFS owner. Of a refused frame the sender is no one, and no owner is named.
// Kept beside a refusal: the edit `sender_of_a_refused`, which must fail, needs a sender there.
#[derive(Clone, Copy)]
pub struct ReceivedInIbss {
    pub received: Result<Received, Fault>,
    pub sender: [u8; 6],
    pub dfs: Option<IbssDfs>,
}

// A frame that was read, and its element 41, with the pair at an index.
#[derive(Clone, Copy)]
pub struct HeardInIbss {
    pub received: Received,
    pub dfs: Option<HeardDfs>,
}

// The body of a beacon.
fn read_beacon(
    body: &[u8],
    interval: u16,
    broadcast: bool,
    index: usize,
) -> Result<HeardInIbss, Fault>
    requires { length body.now ≤ longest_body }
    ensures { (sender : List ℕ) → result ≡ heard_laid index (sent_in_ibss sender broadcast (placed_past header_length (kind_in_ibss interval Subtype.Beacon body.now))) }
{
    let heard = places::beacon_body(body, interval, true, index)?;
    Ok(HeardInIbss {
        received: crate::notice_frame(heard, false, broadcast),
        dfs: heard.dfs,
    })
}

// A frame with no element 41 read.
fn nameless(received: Received) -> HeardInIbss
    ensures { result ≡ record { received = received; dfs = None } }
{
    HeardInIbss {
        received,
        dfs: None,
    }
}

// A frame, with the pair at an index of its element 41.
#[tactic(auto, unfolding(crate::specs::IbssFrames::ibss_frame_means))]
fn hear(
    frame: &[u8],
    own: [u8; 6],
    bssid: [u8; 6],
    interval: u16,
    index: usize,
) -> Result<HeardInIbss, Fault>
    ensures { result ≡ heard_laid index (ibss_frame_means own bssid interval frame.now) }
{
    let head = places::read_head(frame, Cell::Ibss, own, bssid)?;
    let body = header::body(frame);
    match head.subtype {
        Subtype::Beacon => read_beacon(body, interval, head.to_all, index),
        Subtype::ProbeResponse => {
            crate::read_notice(body, interval, true, head.to_all).map(nameless)
        }
        Subtype::Action => crate::read_action(body, head.to_all).map(nameless),
    }
}

// A frame that a station of an IBSS hears: `own` is its address, `bssid` that of its IBSS, `interval` its beacon interval.
pub fn read_in_ibss(frame: &[u8], own: [u8; 6], bssid: [u8; 6], interval: u16) -> ReceivedInIbss
    ensures { result ≡ ibss_laid (ibss_frame_means own bssid interval frame.now) }
{
    let sender = header::sender(frame);
    match hear(frame, own, bssid, interval, 0) {
        Err(fault) => ReceivedInIbss {
            received: Err(fault),
            sender: [0; 6],
            dfs: None,
        },
        Ok(heard) => ReceivedInIbss {
            received: Ok(heard.received),
            sender,
            dfs: heard.dfs.map(|named| named.dfs),
        },
    }
}

// The pair of its element 41 at an index: 16 where there is none, or no element 41.
pub fn dfs_pair_at(
    frame: &[u8],
    own: [u8; 6],
    bssid: [u8; 6],
    interval: u16,
    index: usize,
) -> Result<ChannelMap, Refusal>
    ensures { result ≡ pair_of index (ibss_frame_means own bssid interval frame.now) }
{
    let heard = hear(frame, own, bssid, interval, index).map_err(|fault| fault.refusal)?;
    let named = heard.dfs.ok_or(Refusal::Impossible)?;
    named.pair
}
