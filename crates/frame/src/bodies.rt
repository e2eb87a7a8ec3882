// Action bodies: how they begin, then the elements of that action.
ghost use Rattle.std.specs.Prelude.{◌≡◌, ℕ};
ghost use Rattle.action.specs.declared.Opening.{Opening};
ghost use Rattle.frame.specs.Actions.{after_opening, action_means};
ghost use Rattle.frame.specs.CodeTerms.Located.{unplaced, placed, located};
ghost use Rattle.frame.specs.CodeTerms.SingleFrames.{single_frame, single_opening};
ghost use Rattle.frame.specs.Laid.{body_frame};
ghost use Rattle.measurement_body.specs.Kinds.{sort_of};
ghost use Rattle.single_body.specs.Kinds.{contents_mean, id_of, fields_before};
ghost use Rattle.single_body.specs.Singles.{single};
ghost use Rattle.walk.specs.Handed.{handed_in};

use crate::Frame;
use action::Opening;
use answer::Fault;
use measurement_body::Kind;
use single_body::Single;
use walk::Contents;

// A body that was read, and where the contents of its request or its report at an index lie: absent past the last, and in a body of
// another kind.
#[derive(Clone, Copy)]
pub struct Located {
    pub frame: Frame,
    pub request: Option<Contents>,
    pub report: Option<Contents>,
}

// A frame with no element to be asked for.
pub fn unplaced(frame: Frame) -> Located
    ensures { result ≡ unplaced frame }
{
    Located {
        frame,
        request: None,
        report: None,
    }
}

// A measurement frame, and the place that was found in it.
fn placed(kind: Kind, token: u8, count: usize, place: Option<Contents>) -> Located
    ensures { result ≡ placed kind token count place }
{
    match kind {
        Kind::Requests => Located {
            frame: Frame::MeasurementRequest { token, count },
            request: place,
            report: None,
        },
        Kind::Reports => Located {
            frame: Frame::MeasurementReport { token, count },
            request: None,
            report: place,
        },
    }
}

// Actions 0 and 1: one or more elements 38 or 39.
#[tactic(auto, using(crate::proofs::Indexing::measured))]
fn read_measurements(body: &[u8], kind: Kind, token: u8, index: usize) -> Result<Located, Fault>
    ensures { result ≡ located index body.now (after_opening body.now (Opening.Token (sort_of kind).action token)) }
{
    let found = measurement_body::survey(body, kind, index, 0)?;
    Ok(placed(kind, token, found.count, found.place))
}

// The frame that the element of a body makes, after its token.
fn single_frame(said: Single, token: u8) -> Frame
    ensures { result ≡ single_frame token said }
{
    match said {
        Single::TpcRequest => Frame::TpcRequest { token },
        Single::TpcReport(report) => Frame::TpcReport { token, report },
        Single::ChannelSwitch(switch) => Frame::ChannelSwitch(switch),
    }
}

// Actions 2, 3 and 4: one element. Action 4 has no token, so that the one given is not looked at.
#[tactic(auto, using(crate::proofs::Indexing::found_alone))]
fn read_single(body: &[u8], kind: single_body::Kind, token: u8) -> Result<Located, Fault>
    ensures { (index : ℕ) → result ≡ located index body.now (after_opening body.now (single_opening kind token)) }
{
    let said = single_body::read(body, kind)?;
    Ok(unplaced(single_frame(said, token)))
}

// The body of an action frame, and the place of its measurement element at an index, in one walk.
#[tactic(auto, unfolding(crate::specs::Actions::action_means), using(crate::proofs::Openings::last))]
pub fn read_at(body: &[u8], index: usize) -> Result<Located, Fault>
    ensures { result ≡ located index body.now (action_means body.now) }
{
    match action::open(body)? {
        Opening::Switch => read_single(body, single_body::Kind::ChannelSwitch, 0),
        Opening::Token { action, token } => match action {
            0 => read_measurements(body, Kind::Requests, token, index),
            1 => read_measurements(body, Kind::Reports, token, index),
            2 => read_single(body, single_body::Kind::TpcRequest, token),
            _ => read_single(body, single_body::Kind::TpcReport, token),
        },
    }
}

// The body of an action frame, as the frame that it makes. The place of a fault is counted from the body's first octet.
pub fn read_body(body: &[u8]) -> Result<Frame, Fault>
    ensures { result ≡ body_frame (action_means body.now) }
{
    let found = read_at(body, 0)?;
    Ok(found.frame)
}
