// Whether a reply is due (document 01: only for action frames whose DA is the station; past check 4 all else is 18).
ghost use Rattle.std.specs.Prelude.{◌≡◌};
ghost use Rattle.frame.specs.Actions.{action_means};
ghost use Rattle.reply.specs.CodeTerms.Asked.{due_of};
ghost use Rattle.reply.specs.Due.{has_category, or_return, due_in};

use action::CATEGORY;
use answer::Refusal;
use frame::Frame;
use header::{Cell, Subtype};
use measurement_element::measurement_request::Request;

// What a frame is owed: an answer to the request that it makes, by its dialog token, and the element of a Measurement Request at the index
// that was asked for; or, where its body is broken, that body.
#[derive(Clone, Copy)]
pub enum Due {
    Broken,
    Tpc {
        token: u8,
    },
    Measurement {
        token: u8,
        request: Result<Request, Refusal>,
    },
}

// Whether there is a category, and its top bit is free. An error return has it set, so that none is answered by another.
fn has_category(body: &[u8]) -> bool
    ensures { result ≡ has_category body.now }
{
    CATEGORY < body.len() && body[CATEGORY] < 128
}

// What an action body is owed. Whatever breaks one is among 1, 5 to 10, 21 and 22; one that asks for nothing is due no reply.
#[tactic(auto, using(crate::proofs::Owing::owing, crate::proofs::Owing::back_due))]
fn owed_to(body: &[u8], index: usize) -> Result<Due, Refusal>
    ensures { result ≡ due_of index (or_return body.now (action_means body.now)) }
{
    match frame::read_request(body, index) {
        Err(_) if has_category(body) => Ok(Due::Broken),
        Err(_) => Err(Refusal::NoReplyDue),
        Ok(asked) => match asked.frame {
            Frame::TpcRequest { token } => Ok(Due::Tpc { token }),
            Frame::MeasurementRequest { token, .. } => Ok(Due::Measurement {
                token,
                request: asked.request,
            }),
            _ => Err(Refusal::NoReplyDue),
        },
    }
}

// What a frame to the station itself is owed.
#[tactic(auto, unfolding(crate::specs::Due::due_in))]
pub fn due_to(
    frame: &[u8],
    cell: Cell,
    own: [u8; 6],
    bssid: [u8; 6],
    index: usize,
) -> Result<Due, Refusal>
    ensures { result ≡ due_of index (due_in cell own bssid frame.now) }
{
    let head = header::read(frame, cell, own, bssid)?;
    if head.to_all {
        return Err(Refusal::NoReplyDue);
    }
    match head.subtype {
        Subtype::Action => owed_to(header::body(frame), index),
        Subtype::Beacon | Subtype::ProbeResponse => Err(Refusal::NoReplyDue),
    }
}
