// What a line answers (document 01, "Capture blocks and the evening list"). A line is spelled from its number and its place, and knows no station.
ghost use Rattle.std.specs.Prelude.{◌≡◌};
ghost use Rattle.capture.specs.Lists.{response_number, response_offset};

use answer::{Fault, Refusal};
use station::Permission;

#[derive(Clone, Copy)]
pub enum Response {
    // A refusal, or an accepted call.
    Call(Result<(), Refusal>),
    // The verdict on a frame.
    Frame(Result<(), Fault>),
    // What a question got.
    Question(Permission),
}

impl Response {
    // The answer's number.
    pub fn number(self) -> u8
        ensures { result ≡ response_number self }
    {
        match self {
            Response::Call(answer) => answer::number(answer),
            Response::Frame(verdict) => answer::verdict_number(verdict),
            Response::Question(permission) => permission.number(),
        }
    }

    // Where a frame broke.
    pub fn offset(self) -> Option<usize>
        ensures { result ≡ response_offset self }
    {
        match self {
            Response::Frame(verdict) => answer::verdict_offset(verdict),
            _ => None,
        }
    }
}
