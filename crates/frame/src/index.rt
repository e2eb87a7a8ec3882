// A measurement element of a frame by its index from 0 (document 01: one past the last, or any on another kind, is 16).
ghost use Rattle.std.specs.Prelude.{◌≡◌, ◌-◌, take, drop, IfNone, IfSome};
ghost use Rattle.std.specs.Result.{IsOkAnd};
ghost use Rattle.answer.specs.declared.Refusal.{Refusal};
ghost use Rattle.answer.specs.Checks.{and_then};
ghost use Rattle.answer.specs.Faults.{placed_past, without_place};
ghost use Rattle.frame.specs.Actions.{action_means};
ghost use Rattle.frame.specs.CodeTerms.Located.{PlaceWithin, means_at, located_in, kind_means, asked_of};
ghost use Rattle.frame.specs.Frames.{kind_of, frame_means, request_in, report_in, element_of};
ghost use Rattle.frame.specs.Laid.{body_frame};
ghost use Rattle.header.specs.Headers.{header_length, body_of};
ghost use Rattle.measurement_body.specs.Bodies.{longest_body};
ghost use Rattle.header.specs.declared.management.Subtype.{Subtype};
ghost use Rattle.measurement_element.specs.MeasurementReport.{report_means};
ghost use Rattle.measurement_element.specs.MeasurementRequest.{request_means};

use crate::bodies::Located;
use crate::{BodyKind, Frame, bodies, places};
use answer::{Fault, Refusal};
use header::Cell;
use measurement_element::measurement_report::Report;
use measurement_element::measurement_request::Request;
use measurement_element::{measurement_report, measurement_request};
use walk::Contents;

// An action body, and its request at an index.
#[derive(Clone, Copy)]
pub struct Asked {
    pub frame: Frame,
    pub request: Result<Request, Refusal>,
}

// The contents at a place of a body: no place is 16.
// Kept: that the place lies in the body stands in the contracts: it is found in one call and read in another.
fn contents_at(body: &[u8], place: Option<Contents>) -> Result<&[u8], Refusal>
    requires { PlaceWithin body.now place }
    ensures nowhere { IfNone place (result ≡ Err Refusal.Impossible) }
    ensures there { IfSome place (λ p. IsOkAnd result (λ contents. contents.now ≡ take (p.end - p.start) (drop p.start body.now))) }
{
    match place {
        None => Err(Refusal::Impossible),
        Some(contents) => Ok(&body[contents.start..contents.end]),
    }
}

// The request at a place of a body.
fn request_there(body: &[u8], place: Option<Contents>) -> Result<Request, Refusal>
    requires { PlaceWithin body.now place }
    ensures { result ≡ means_at request_means body.now place }
{
    measurement_request::read(contents_at(body, place)?)
}

// The report at a place of a body.
fn report_there(body: &[u8], place: Option<Contents>) -> Result<Report, Refusal>
    requires { PlaceWithin body.now place }
    ensures { result ≡ means_at report_means body.now place }
{
    measurement_report::read(contents_at(body, place)?)
}

// An action body and its request at an index, in one walk.
#[tactic(auto, using(crate::proofs::Indexing::request_inside, crate::proofs::Indexing::asked))]
pub fn read_request(body: &[u8], index: usize) -> Result<Asked, Fault>
    ensures { result ≡ asked_of index (action_means body.now) }
{
    let found = bodies::read_at(body, index)?;
    Ok(Asked {
        frame: found.frame,
        request: request_there(body, found.request),
    })
}

// The request at an index of an action body.
pub fn request_in(body: &[u8], index: usize) -> Result<Request, Refusal>
    ensures { result ≡ and_then (without_place (action_means body.now)) (request_in index) }
{
    let asked = read_request(body, index).map_err(|fault| fault.refusal)?;
    asked.request
}

// A frame, and where in its body the element at an index lies: beacons and probe responses have none.
#[tactic(auto, unfolding(crate::specs::CodeTerms::Located::kind_means))]
fn locate(
    frame: &[u8],
    own: [u8; 6],
    ap: [u8; 6],
    interval: u16,
    index: usize,
) -> Result<Located, Fault>
    ensures { result ≡ located_in index (body_of frame.now) (kind_means own ap interval frame.now) }
{
    let head = places::read_head(frame, Cell::Ap, own, ap)?;
    let body = header::body(frame);
    match crate::body_kind(head.subtype) {
        BodyKind::Action => places::action_body(body, index),
        BodyKind::Notice { probe } => {
            let heard = crate::read_notice(body, interval, probe, false)?;
            Ok(bodies::unplaced(heard.frame))
        }
    }
}

// The request at an index of a frame. Kept beside that of reports: they differ in the place and the reader, and one over both would be longer.
#[tactic(auto, using(crate::proofs::Indexing::request_found))]
pub fn request_at(
    frame: &[u8],
    own: [u8; 6],
    ap: [u8; 6],
    interval: u16,
    index: usize,
) -> Result<Request, Refusal>
    ensures { result ≡ element_of request_in index (frame_means own ap interval frame.now) }
{
    let found = locate(frame, own, ap, interval, index).map_err(|fault| fault.refusal)?;
    request_there(header::body(frame), found.request)
}

// The report at an index of a frame.
#[tactic(auto, using(crate::proofs::Indexing::report_found))]
pub fn report_at(
    frame: &[u8],
    own: [u8; 6],
    ap: [u8; 6],
    interval: u16,
    index: usize,
) -> Result<Report, Refusal>
    ensures { result ≡ element_of report_in index (frame_means own ap interval frame.now) }
{
    let found = locate(frame, own, ap, interval, index).map_err(|fault| fault.refusal)?;
    report_there(header::body(frame), found.report)
}
