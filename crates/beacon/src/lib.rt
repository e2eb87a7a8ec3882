// Beacon and Probe Response bodies (document 01, "Answer numbers" and "Octets"; 02, Five; 802.11h 7.2.3.1 and 7.2.3.9).
#![tactic(auto)]

mod adding;
mod elements;
mod held;
mod naming;
mod quiets;

ghost use Rattle.std.specs.Prelude.{◌≡◌};
ghost use Rattle.beacon.specs.IbssBeacons.{told_where};
ghost use Rattle.beacon.specs.Laid.{laid};

use answer::{Fault, Refusal};
use element::channel_switch::ChannelSwitch;
use element::ibss_dfs::{ChannelMap, IbssDfs};
use element::power_constraint::PowerConstraint;
use element::quiet::Quiet;
use element::tpc_report::TpcReport;
pub use held::held_power;
use walk::Found;

// How many Quiet elements a frame may have.
pub const QUIETS: usize = 8;

// The octets of the fixed fields: timestamp 8, interval 2, capability 2; and how many stand before the interval.
const FIXED_LENGTH: usize = 12;

const INTERVAL: usize = 8;

// What a beacon or a probe response says, but for its Quiet elements.
#[derive(Clone, Copy)]
pub struct Notice {
    pub timestamp: u64,
    pub capability: u16,
    pub power: Option<PowerConstraint>,
    pub report: Option<TpcReport>,
    pub switch: Option<ChannelSwitch>,
}

impl Notice {
    // Nothing is said.
    pub const NOTHING: Notice = Notice {
        timestamp: 0,
        capability: 0,
        power: None,
        report: None,
        switch: None,
    };
}

// What an element 41 says, and its pair at an index: 16 past the last.
#[derive(Clone, Copy)]
pub struct HeardDfs {
    pub dfs: IbssDfs,
    pub pair: Result<ChannelMap, Refusal>,
}

// The notice, and the Quiet elements beside it: the first `count` slots in the order of the frame, the others blank.
// Element 41 is read where it is asked for, and else skipped.
// Kept as an array and a count, here and where it is handed on: there is no heap.
#[derive(Clone, Copy)]
pub struct Heard {
    pub notice: Notice,
    pub quiets: [Quiet; QUIETS],
    pub count: usize,
    pub dfs: Option<HeardDfs>,
}

// What a slot holds that is not in use.
pub const NO_QUIET: Quiet = Quiet {
    count: 0,
    period: 0,
    duration: 0,
    offset: 0,
};

// A body of a beacon or a probe response, heard by a station whose beacon interval is `interval`. In an IBSS a beacon's element 41 is read too, with its pair
// at the index.
pub fn read(body: &[u8], interval: u16, ibss: bool, index: usize) -> Result<Heard, Fault>
    ensures { result ≡ laid index (told_where ibss interval body.now) }
{
    if body.len() < FIXED_LENGTH {
        return Err(Fault::nowhere(Refusal::TooShort));
    }
    if octets::number16(body, INTERVAL) != interval {
        return Err(Fault::at(Refusal::OtherInterval, INTERVAL));
    }
    let mut notice = Notice {
        timestamp: octets::number64(body, 0),
        capability: octets::number16(body, 10),
        ..Notice::NOTHING
    };
    let mut quiets = [NO_QUIET; QUIETS];
    let mut count = 0;
    let mut dfs = None;
    let mut at = FIXED_LENGTH;
    loop {
        match quiets::quiet_at(body, at, count, interval) {
            Some(quiet) => {
                quiets[count] = quiet;
                count += 1;
                at += quiets::LENGTH;
            }
            None => match walk::element_at(body, at) {
                Found::End => {
                    return Ok(Heard {
                        notice,
                        quiets,
                        count,
                        dfs,
                    });
                }
                Found::CutHeader(_) | Found::CutContents(_) => {
                    return Err(Fault::at(Refusal::ElementCut, at));
                }
                Found::Whole { id, start, end } => {
                    let contents = &body[start..end];
                    let placed = |refusal| Fault::at(refusal, at);
                    if naming::reads_dfs(ibss, id) {
                        let next = naming::read_dfs(contents, dfs.is_some(), index);
                        dfs = Some(next.map_err(placed)?);
                    } else {
                        let next = adding::add_element(notice, id, contents, interval);
                        notice = next.map_err(placed)?;
                    }
                    at = end;
                }
            },
        }
    }
}
