// An element as it is written: the answer's number, of one that is written its length, and the whole buffer.
ghost use Rattle.std.specs.Prelude.{◌≤◌};

use crate::call::Call;
use crate::page::Page;
use crate::replies::BLANK;
use crate::{answers, last, say};
use answer::Refusal;
use element::channel_switch::ChannelSwitch;
use element::power_constraint::PowerConstraint;
use element::quiet::Quiet;
use element::{channel_switch, power_constraint, quiet, tpc_report, tpc_request};
use measurement_element::measurement_report::{Reason, Report};
use measurement_element::measurement_request::Request;
use measurement_element::{Found, Span, measurement_report, measurement_request};
use std::io::Write;

// How long the buffer is.
const ROOM: usize = 32;

fn power(call: Call) -> PowerConstraint {
    PowerConstraint {
        decibels: call.octets[4],
    }
}

fn switch(call: Call) -> ChannelSwitch {
    ChannelSwitch {
        mode: call.octets[4],
        channel: call.octets[5],
        count: call.octets[6],
    }
}

fn quiet_of(call: Call) -> Quiet {
    Quiet {
        count: call.octets[5],
        period: call.octets[6],
        duration: last::two(call.numbers[7]),
        offset: last::two(call.numbers[8]),
    }
}

// From a place on, in the order of the element.
fn span(call: Call, place: usize) -> Span
    requires { place ≤ 13 }
{
    Span {
        channel: call.octets[place],
        start: call.numbers[place + 1],
        duration: last::two(call.numbers[place + 2]),
    }
}

// Kept beside the one of `boundary`: that is the C interface, which no scene calls.
fn asked(call: Call) -> measurement_request::Matter {
    match call.numbers[6] {
        0 => measurement_request::Matter::Enable {
            request: call.numbers[7] == 1,
            report: call.numbers[8] == 1,
        },
        1 => measurement_request::Matter::Measure(span(call, 7)),
        _ => measurement_request::Matter::Uninterpreted,
    }
}

fn request(call: Call) -> Request {
    Request {
        token: call.octets[4],
        kind: call.octets[5],
        matter: asked(call),
    }
}

fn measured(call: Call, found: Found) -> measurement_report::Matter {
    measurement_report::Matter::Measured {
        span: span(call, 8),
        found,
    }
}

// Kept beside the one of `boundary`: that is the C interface, which no scene calls.
fn said(call: Call) -> measurement_report::Matter {
    match call.numbers[6] {
        0 => measurement_report::Matter::NotMeasured(Reason::Late),
        1 => measurement_report::Matter::NotMeasured(Reason::Incapable),
        2 => measurement_report::Matter::NotMeasured(Reason::Refused),
        3 => measured(call, Found::Map(call.octets[7])),
        4 => measured(call, Found::Busy(call.octets[7])),
        5 => measured(call, Found::Densities),
        _ => measurement_report::Matter::Uninterpreted,
    }
}

fn report(call: Call) -> Report {
    Report {
        token: call.octets[4],
        kind: call.octets[5],
        matter: said(call),
        densities: std::array::from_fn(|i| call.octets[11 + i]),
    }
}

// An element by its ID. One that there is not must not go by unseen.
fn written<W: Write>(page: &mut Page<W>, call: Call, buffer: &mut [u8]) -> Result<usize, Refusal> {
    let at = call.numbers[3] as usize;
    match call.octets[1] {
        power_constraint::ID => power_constraint::write(power(call), buffer, at),
        tpc_request::ID => tpc_request::write(buffer, at),
        tpc_report::ID => tpc_report::write(call.tpc_report(4), buffer, at),
        channel_switch::ID => channel_switch::write(switch(call), buffer, at),
        measurement_request::ID => measurement_request::write(request(call), buffer, at),
        measurement_report::ID => measurement_report::write(report(call), buffer, at),
        quiet::ID => quiet::write(quiet_of(call), last::two(call.numbers[4]), buffer, at),
        _ => {
            say::text(page, b" unknown");
            Ok(0)
        }
    }
}

// Of the buffer's octets only as many are lent as the call says.
pub fn show<W: Write>(page: &mut Page<W>, call: Call) {
    let mut buffer = [BLANK; ROOM];
    let room = (call.numbers[2] % 33) as usize;
    let wrote = written(page, call, &mut buffer[..room]);
    answers::wrote(page, wrote);
    say::text(page, b" in");
    say::octets(page, &buffer);
}
