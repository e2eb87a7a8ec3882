// What a scene plays, as it goes on: alike for document 01's station, a station of an IBSS and a table.
ghost use Rattle.std.specs.Prelude.{◌≤◌, IfOk, IfSome};

use answer::{Fault, Refusal};
use scene::call::Call;
use scene::page::Page;
use scene::replies::{BLANK, ROOM};
use scene::verb::{Form, Reply, Verb};
use scene::{answers, made, replies};
use station::Station;
use std::io::Write;

pub trait Played: Copy {
    // Calls may be handed to it.
    ghost valid: { Self → Type 0 };

    // What its clock tells.
    fn clock(self) -> u32;

    // As a call starts it.
    fn started(call: Call) -> Result<Self, Refusal>
        ensures { IfOk result valid };

    // After so many units.
    fn after(self, units: u32) -> (Result<(), Refusal>, Self)
        requires { valid self }
        ensures { valid result.1 };

    // The frame that a call gives, put into zeros, and how long it is.
    fn put(form: Form, call: Call, frame: &mut [u8]) -> usize
        ensures { result ≤ 2400 };

    // After a frame.
    fn taking(self, frame: &[u8]) -> (Result<(), Fault>, Self)
        requires { valid self }
        ensures { valid result.1 };

    // After a call of its own that brings it on, where this is one.
    fn brought_on(self, call: Call) -> Option<(Result<(), Refusal>, Self)>
        requires { valid self }
        ensures { IfSome result (λ on. valid on.1) };

    // Tells what a call asks for that leaves it as it is.
    fn show<W: Write>(self, page: &mut Page<W>, call: Call)
        requires { valid self };
}

// It after a call that was answered.
fn told<W: Write, P: Played>(
    page: &mut Page<W>,
    stepped: (Result<(), Refusal>, P),
    always: bool,
) -> P
    requires { P.valid stepped.1 }
    ensures { P.valid result }
{
    let (answer, next) = stepped;
    answers::tell(page, answer, always);
    next
}

// At a moment, by steps of which all but the last are the longest.
fn at<W: Write, P: Played>(page: &mut Page<W>, played: P, call: Call) -> P
    requires { P.valid played }
    ensures { P.valid result }
{
    let mut next = played;
    let mut left = call.units_from(page, played.clock());
    // Kept as `while`: the last step is what is left, so there is no count of steps to go over.
    while Station::UNIT_LIMIT < left {
        next = told(page, next.after(Station::UNIT_LIMIT), false);
        left -= Station::UNIT_LIMIT;
    }
    told(page, next.after(left), false)
}

// Where the start is refused the scene keeps what it has.
fn start<W: Write, P: Played>(page: &mut Page<W>, played: P, call: Call) -> P
    requires { P.valid played }
    ensures { P.valid result }
{
    let started = P::started(call);
    answers::tell(page, started, call.expected);
    started.unwrap_or(played)
}

fn take<W: Write, P: Played>(page: &mut Page<W>, played: P, form: Form, call: Call) -> P
    requires { P.valid played }
    ensures { P.valid result }
{
    let mut frame = [0u8; made::LONGEST];
    let length = P::put(form, call, &mut frame);
    let (verdict, next) = played.taking(&frame[0..length]);
    answers::verdict(page, verdict);
    next
}

// It after a call.
pub fn run<W: Write, P: Played>(page: &mut Page<W>, played: P, call: Call) -> P
    requires { P.valid played }
    ensures { P.valid result }
{
    match call.verb {
        Verb::At => at(page, played, call),
        Verb::Start => start(page, played, call),
        Verb::Take(form) => take(page, played, form, call),
        _ => match played.brought_on(call) {
            Some(stepped) => told(page, stepped, call.expected),
            None => {
                played.show(page, call);
                played
            }
        },
    }
}

// The reply to a call's frame, which is made in a buffer of the room that the call says.
pub fn reply<W: Write, F: FnOnce(&[u8], &mut [u8]) -> Result<usize, Refusal> + Drop>(
    page: &mut Page<W>,
    to: Reply,
    call: Call,
    make: F,
)
    requires { F.IsAlwaysCallable make }
{
    let mut frame = [0u8; replies::LONGEST];
    let length = replies::put(to, call, &mut frame);
    let room = replies::room(call);
    let mut buffer = [BLANK; ROOM];
    let wrote = make(&frame[0..length], &mut buffer[0..room]);
    replies::tell(page, wrote, &buffer);
}
