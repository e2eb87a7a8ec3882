// What a call for a reply gives, and the reply as it is told: the answer's number, of a reply its length and its octets, and whether the buffer is as it was
// after them, or whole where there is none.
ghost use Rattle.std.specs.Prelude.{◌≤◌};

use crate::call::Call;
use crate::page::Page;
use crate::verb::Reply;
use crate::{answers, last, say};
use answer::Refusal;
use element::tpc_report::TpcReport;
use measured_report::{Finding, Readings};
use std::io::Write;

// Every buffer is lent full of this octet, so that one that is changed shows.
pub const BLANK: u8 = 170;

// A buffer takes a reply as long as the longest frame.
pub const ROOM: usize = 2400;

// How many octets a frame may have that a reply is made to.
pub const LONGEST: usize = 2496;

// At which place of the call the frame begins.
fn place(reply: Reply) -> usize
    ensures { result ≤ 128 }
{
    match reply {
        Reply::Tpc => 5,
        Reply::Measurement => 15,
    }
}

// Puts the frame into zeros, and tells how long it is: the call's octets, and as many zeros as it says. Sizes past their limits wrap, so that every scene
// runs.
pub fn put(reply: Reply, call: Call, frame: &mut [u8]) -> usize
    ensures { result ≤ 2496 }
{
    let octets = call.octets_from(place(reply));
    let zeros = (call.numbers[2] % 2337) as usize;
    let _ = octets::put(true, octets, frame, 0);
    octets.len() + zeros
}

// How much of the buffer is lent.
pub fn room(call: Call) -> usize
    ensures { result ≤ 2400 }
{
    (call.numbers[1] % 2401) as usize
}

// The report that a TPC Request is replied with.
pub fn report(call: Call) -> TpcReport {
    call.tpc_report(3)
}

// Kept beside the one of `boundary`: that is the C interface, which no scene calls.
fn finding(call: Call) -> Finding {
    match call.numbers[5] {
        0 => Finding::Refused,
        1 => Finding::Map(call.octets[6]),
        2 => Finding::Busy(last::four(call.numbers[6])),
        _ => Finding::Times,
    }
}

// What was found, from the call's fifth number on.
pub fn readings(call: Call) -> Readings {
    Readings {
        finding: finding(call),
        times: std::array::from_fn(|i| last::four(call.numbers[7 + i])),
    }
}

// The first octets, and whether the others are as they were lent.
fn octets<W: Write>(page: &mut Page<W>, buffer: &[u8], count: usize) {
    let Some((written, others)) = buffer.split_at_checked(count) else {
        return;
    };
    say::octets(page, written);
    if others.iter().all(|octet| *octet == BLANK) {
        say::text(page, b" kept");
    } else {
        say::text(page, b" changed");
    }
}

pub fn tell<W: Write>(page: &mut Page<W>, wrote: Result<usize, Refusal>, buffer: &[u8; ROOM]) {
    answers::wrote(page, wrote);
    octets(page, buffer, wrote.unwrap_or(0));
}
