// What a station hears of a frame (document 01, "The station"): the refusal, or what the frame changes of a station and its Quiet elements. The frame itself
// would be longer to hand on.
ghost use Rattle.std.specs.Prelude.{◌≡◌, Bool, false, [], ◌≤◌, length};
ghost use Rattle.answer.specs.Faults.{placed_past};
ghost use Rattle.frame.specs.Frames.{kind_of, sent, frame_means};
ghost use Rattle.frame.specs.Hearing.{verdict_on, by_notice, by_frame, by_reading, heard_of, hearing_of};
ghost use Rattle.frame.specs.Laid.{received, frame_laid, notice_subtype};
ghost use Rattle.header.specs.Headers.{header_length};
ghost use Rattle.header.specs.declared.management.Subtype.{Subtype};
ghost use Rattle.measurement_body.specs.Bodies.{longest_body};

use crate::{BodyKind, Frame, places};
use answer::Fault;
use beacon::{NO_QUIET, Notice, QUIETS};
use element::channel_switch::ChannelSwitch;
use element::power_constraint::PowerConstraint;
use element::quiet::Quiet;
use header::Cell;

// Whether the Quiet elements of a frame replace all schedules, its Power Constraint, and its announcement.
// Kept as a flag: `by_frame` has the frame alone, whose Quiet elements stand beside, long to copy.
#[derive(Clone, Copy)]
pub struct Change {
    pub replaces: bool,
    pub power: Option<PowerConstraint>,
    pub switch: Option<ChannelSwitch>,
}

impl Change {
    const NOTHING: Change = Change {
        replaces: false,
        power: None,
        switch: None,
    };

    // By a beacon or a probe response.
    fn by_notice(notice: Notice) -> Change
        ensures { result ≡ by_notice notice }
    {
        Change {
            replaces: true,
            power: notice.power,
            switch: notice.switch,
        }
    }

    // By an accepted frame. Measurement frames and those of transmit power control change nothing.
    pub fn by_frame(frame: Frame) -> Change
        ensures { result ≡ by_frame frame }
    {
        match frame {
            Frame::Beacon(notice) | Frame::ProbeResponse(notice) => Change::by_notice(notice),
            Frame::ChannelSwitch(switch) => Change {
                switch: Some(switch),
                ..Change::NOTHING
            },
            Frame::MeasurementRequest { .. }
            | Frame::MeasurementReport { .. }
            | Frame::TpcRequest { .. }
            | Frame::TpcReport { .. } => Change::NOTHING,
        }
    }

    // By what was read: a refused frame changes nothing.
    pub fn by_reading(reading: Result<Frame, Fault>) -> Change
        ensures { result ≡ by_reading reading }
    {
        reading.map_or(Change::NOTHING, Change::by_frame)
    }
}

// The verdict on what was read.
pub fn verdict_on(reading: Result<Frame, Fault>) -> Result<(), Fault>
    ensures { result ≡ verdict_on reading }
{
    reading.map(|_| ())
}

// The first `count` slots are the Quiet elements in the order of the frame, and the others are blank.
// Kept as an array and a count, as in `beacon::Heard`: there is no heap.
#[derive(Clone, Copy)]
pub struct Hearing {
    pub change: Change,
    pub quiets: [Quiet; QUIETS],
    pub count: usize,
}

// What is heard of a frame with no Quiet element beside it, whoever it was sent to.
fn heard_alone(frame: Frame) -> Hearing
    ensures { result ≡ heard_of (received frame false []) }
{
    Hearing {
        change: Change::by_frame(frame),
        quiets: [NO_QUIET; QUIETS],
        count: 0,
    }
}

// A beacon or a probe response: what is heard of a body is the same for both, whoever the frame was sent to.
fn hear_notice(body: &[u8], interval: u16) -> Result<Hearing, Fault>
    requires { length body.now ≤ longest_body }
    ensures { (probe to_all : Bool) → result ≡ hearing_of (frame_laid (sent to_all (placed_past header_length (kind_of interval (notice_subtype probe) body.now)))) }
{
    let heard = places::beacon_body(body, interval, false, 0)?;
    let quiets = heard.quiets;
    Ok(Hearing {
        change: Change::by_notice(heard.notice),
        quiets,
        count: heard.count,
    })
}

// An action frame, whoever it was sent to.
fn hear_action(body: &[u8]) -> Result<Hearing, Fault>
    requires { length body.now ≤ longest_body }
    ensures { (to_all : Bool) → result ≡ hearing_of (frame_laid (sent to_all (placed_past header_length (kind_of 0 Subtype.Action body.now)))) }
{
    let found = places::action_body(body, 0)?;
    Ok(heard_alone(found.frame))
}

// What a station hears of a frame: what `read` would hand out of it, as a hearing. `own` is the station's address, `ap` its AP's, `interval` its beacon
// interval.
#[tactic(auto, unfolding(crate::specs::Frames::frame_means))]
pub fn hear(frame: &[u8], own: [u8; 6], ap: [u8; 6], interval: u16) -> Result<Hearing, Fault>
    ensures { result ≡ hearing_of (frame_laid (frame_means own ap interval frame.now)) }
{
    let head = places::read_head(frame, Cell::Ap, own, ap)?;
    let body = header::body(frame);
    match crate::body_kind(head.subtype) {
        BodyKind::Notice { probe: _ } => hear_notice(body, interval),
        BodyKind::Action => hear_action(body),
    }
}
