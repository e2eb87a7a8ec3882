// Replies (document 01, "Replies"; 02, One): what a station owes for a TPC Request and for an element of a Measurement Request, put into a lent
// buffer as a whole frame. An action frame with a broken body gets that body back from either call, whatever it was to be. The station's own record takes no part but for its address, its AP and its clock.
#![tactic(auto)]

mod due;
mod framing;

ghost use Rattle.std.specs.Prelude.{◌≡◌};
ghost use Rattle.header.specs.declared.address.Cell.{Cell};
ghost use Rattle.reply.specs.Frames.{old_sender};
ghost use Rattle.reply.specs.Replies.{tpc_reply_in, measurement_reply_in, tpc_reply, measurement_reply, Replied};

use answer::Refusal;
use due::Due;
use element::tpc_report::TpcReport;
use header::Cell;
use measured_report::Readings;

// To whom a reply goes: the AP, or whoever of the IBSS sent the frame.
fn old_sender(frame: &[u8], cell: Cell, bssid: [u8; 6]) -> [u8; 6]
    ensures { result ≡ old_sender cell bssid frame.now }
{
    match cell {
        Cell::Ap => bssid,
        Cell::Ibss => header::sender(frame),
    }
}

// The reply to a TPC Request, in a cell of either kind.
fn tpc_reply(
    frame: &[u8],
    cell: Cell,
    own: [u8; 6],
    bssid: [u8; 6],
    report: TpcReport,
    buffer: &mut [u8],
) -> Result<usize, Refusal>
    ensures { Replied (tpc_reply_in cell own bssid report frame.now) buffer.old result buffer.new }
{
    let to = old_sender(frame, cell, bssid);
    match due::due_to(frame, cell, own, bssid, 0)? {
        Due::Broken => framing::put_return(own, to, bssid, header::body(frame), buffer),
        Due::Measurement { .. } => Err(Refusal::Impossible),
        Due::Tpc { token } => framing::put_tpc_report(own, to, bssid, token, report, buffer),
    }
}

// The reply to the element at an index of a Measurement Request, in a cell of either kind.
fn measurement_reply(
    frame: &[u8],
    cell: Cell,
    own: [u8; 6],
    bssid: [u8; 6],
    clock: u32,
    index: usize,
    readings: Readings,
    buffer: &mut [u8],
) -> Result<usize, Refusal>
    ensures { Replied (measurement_reply_in cell own bssid clock index readings frame.now) buffer.old result buffer.new }
{
    let to = old_sender(frame, cell, bssid);
    match due::due_to(frame, cell, own, bssid, index)? {
        Due::Broken => framing::put_return(own, to, bssid, header::body(frame), buffer),
        Due::Tpc { .. } => Err(Refusal::Impossible),
        Due::Measurement { token, request } => {
            let report = measured_report::report_for(request?, clock, readings)?;
            framing::put_report(own, to, bssid, token, report, buffer)
        }
    }
}

// The reply to a TPC Request: a TPC Report with its token, and the power and the margin that the caller has measured.
pub fn to_tpc_request(
    frame: &[u8],
    own: [u8; 6],
    ap: [u8; 6],
    report: TpcReport,
    buffer: &mut [u8],
) -> Result<usize, Refusal>
    ensures { Replied (tpc_reply own ap report frame.now) buffer.old result buffer.new }
{
    tpc_reply(frame, Cell::Ap, own, ap, report, buffer)
}

// The same of a station of an IBSS (document 02, Five): the reply goes to whoever sent the frame.
// Kept beside the one of an AP: both are public, and each promise stays as it is.
pub fn to_tpc_request_in_ibss(
    frame: &[u8],
    own: [u8; 6],
    bssid: [u8; 6],
    report: TpcReport,
    buffer: &mut [u8],
) -> Result<usize, Refusal>
    ensures { Replied (tpc_reply_in Cell.Ibss own bssid report frame.now) buffer.old result buffer.new }
{
    tpc_reply(frame, Cell::Ibss, own, bssid, report, buffer)
}

// The reply to the element at an index of a Measurement Request. `clock` is the station's, in TU.
pub fn to_measurement_request(
    frame: &[u8],
    own: [u8; 6],
    ap: [u8; 6],
    clock: u32,
    index: usize,
    readings: Readings,
    buffer: &mut [u8],
) -> Result<usize, Refusal>
    ensures { Replied (measurement_reply own ap clock index readings frame.now) buffer.old result buffer.new }
{
    measurement_reply(frame, Cell::Ap, own, ap, clock, index, readings, buffer)
}

// The same of a station of an IBSS.
// Kept beside the one of an AP: both are public, and each promise stays as it is.
pub fn to_measurement_request_in_ibss(
    frame: &[u8],
    own: [u8; 6],
    bssid: [u8; 6],
    clock: u32,
    index: usize,
    readings: Readings,
    buffer: &mut [u8],
) -> Result<usize, Refusal>
    ensures { Replied (measurement_reply_in Cell.Ibss own bssid clock index readings frame.now) buffer.old result buffer.new }
{
    measurement_reply(
        frame,
        Cell::Ibss,
        own,
        bssid,
        clock,
        index,
        readings,
        buffer,
    )
}
