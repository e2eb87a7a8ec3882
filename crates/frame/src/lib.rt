// Frames (document 01, "A frame that is read is one of seven kinds"): any octets at all come out as one of them, or as one refusal.
#![tactic(auto)]

mod bodies;
mod hearing;
mod ibss;
mod index;
mod places;

ghost use Rattle.std.specs.Prelude.{◌≡◌, [], ◌≤◌, length};
ghost use Rattle.answer.specs.Faults.{placed_past};
ghost use Rattle.frame.specs.CodeTerms.BodyKinds.{kind_subtype};
ghost use Rattle.frame.specs.CodeTerms.Notices.{notice_frame};
ghost use Rattle.frame.specs.Frames.{kind_of, sent, frame_means};
ghost use Rattle.frame.specs.Laid.{received, frame_laid, notice_subtype};
ghost use Rattle.header.specs.Headers.{header_length};
ghost use Rattle.header.specs.declared.management.Subtype.{Subtype};
ghost use Rattle.measurement_body.specs.Bodies.{longest_body};

use answer::Fault;
use beacon::{Heard, NO_QUIET, Notice, QUIETS};
pub use bodies::read_body;
use element::channel_switch::ChannelSwitch;
use element::quiet::Quiet;
use element::tpc_report::TpcReport;
use header::{Cell, Subtype};
pub use hearing::{Change, Hearing, hear, verdict_on};
pub use ibss::{ReceivedInIbss, dfs_pair_at, read_in_ibss};
pub use index::{Asked, read_request, report_at, request_at, request_in};

// The seven kinds. Measurement frames say how many elements they have; each is given by its index.
#[derive(Clone, Copy)]
pub enum Frame {
    Beacon(Notice),
    ProbeResponse(Notice),
    MeasurementRequest { token: u8, count: usize },
    MeasurementReport { token: u8, count: usize },
    TpcRequest { token: u8 },
    TpcReport { token: u8, report: TpcReport },
    ChannelSwitch(ChannelSwitch),
}

// What was received: the frame, whether it was sent to all ones, and the Quiet elements of a beacon or a probe response beside it,
// the first `count` slots in the order of the frame and the others blank.
// Kept as an array and a count, as in `beacon::Heard`: there is no heap.
#[derive(Clone, Copy)]
pub struct Received {
    pub frame: Frame,
    pub broadcast: bool,
    pub quiets: [Quiet; QUIETS],
    pub count: usize,
}

// A frame with no Quiet element beside it.
fn alone(frame: Frame, broadcast: bool) -> Received
    ensures { result ≡ received frame broadcast [] }
{
    Received {
        frame,
        broadcast,
        quiets: [NO_QUIET; QUIETS],
        count: 0,
    }
}

// A body that was heard, as the frame that it makes.
fn notice_frame(heard: Heard, probe: bool, broadcast: bool) -> Received
    ensures { result ≡ notice_frame probe broadcast heard }
{
    let frame = if probe {
        Frame::ProbeResponse(heard.notice)
    } else {
        Frame::Beacon(heard.notice)
    };
    let quiets = heard.quiets;
    Received {
        frame,
        broadcast,
        quiets,
        count: heard.count,
    }
}

// A beacon, where `probe` is false, or a probe response: their bodies are the same.
fn read_notice(body: &[u8], interval: u16, probe: bool, broadcast: bool) -> Result<Received, Fault>
    requires { length body.now ≤ longest_body }
    ensures { result ≡ frame_laid (sent broadcast (placed_past header_length (kind_of interval (notice_subtype probe) body.now))) }
{
    let heard = places::beacon_body(body, interval, false, 0)?;
    Ok(notice_frame(heard, probe, broadcast))
}

// An action frame.
fn read_action(body: &[u8], broadcast: bool) -> Result<Received, Fault>
    requires { length body.now ≤ longest_body }
    ensures { result ≡ frame_laid (sent broadcast (placed_past header_length (kind_of 0 Subtype.Action body.now))) }
{
    let found = places::action_body(body, 0)?;
    Ok(alone(found.frame, broadcast))
}

// What the body of a frame is read as.
#[derive(Clone, Copy)]
pub enum BodyKind {
    Notice { probe: bool },
    Action,
}

fn body_kind(subtype: Subtype) -> BodyKind
    ensures { kind_subtype result ≡ subtype }
{
    match subtype {
        Subtype::Beacon => BodyKind::Notice { probe: false },
        Subtype::ProbeResponse => BodyKind::Notice { probe: true },
        Subtype::Action => BodyKind::Action,
    }
}

// A frame that a station hears: `own` is its address, `ap` its AP's, `interval` its beacon interval.
// Kept as parameters: the C interface and a station's fields have them one by one, so each caller
// would put a struct together first.
#[tactic(auto, unfolding(crate::specs::Frames::frame_means))]
pub fn read(frame: &[u8], own: [u8; 6], ap: [u8; 6], interval: u16) -> Result<Received, Fault>
    ensures { result ≡ frame_laid (frame_means own ap interval frame.now) }
{
    let head = places::read_head(frame, Cell::Ap, own, ap)?;
    let body = header::body(frame);
    match body_kind(head.subtype) {
        BodyKind::Notice { probe } => read_notice(body, interval, probe, head.to_all),
        BodyKind::Action => read_action(body, head.to_all),
    }
}
