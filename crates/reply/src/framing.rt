// A reply as a frame: its header, then the body (document 01, "Replies").
ghost use Rattle.std.specs.Prelude.{◌≡◌, true, [], ◌∷◌, ◌≤◌, length};
ghost use Rattle.single_body.specs.Singles.{tpc_report_body};
ghost use Rattle.measurement_element.specs.MeasurementReport.{report_may};
ghost use Rattle.measurement_body.specs.Bodies.{longest_body, body_octets};
ghost use Rattle.measurement_body.specs.Reports.{report_sort};
ghost use Rattle.octets.specs.Writing.{Written};
ghost use Rattle.reply.specs.Due.{has_category};
ghost use Rattle.reply.specs.Frames.{head_to, frame_to, error_return};

use action::CATEGORY;
use answer::Refusal;
use element::tpc_report::TpcReport;
use measurement_element::measurement_report::Report;

// How many octets the body of a TPC Report has, and at most that of a Measurement Report of one element.
const TPC_REPORT_BODY: usize = 7;

const LONGEST_REPLY_BODY: usize = 27;

// An action frame to another of the cell: flags, duration and sequence control are 0. The three addresses are kept as parameters: the definitions take them one
// by one, and a struct would be taken apart for each.
// Kept octet by octet: by slices it is a blank head and four puts at their places, which is longer.
fn head(own: [u8; 6], to: [u8; 6], bssid: [u8; 6]) -> [u8; header::LENGTH]
    ensures { result ≡ head_to own to bssid }
{
    [
        208, 0, 0, 0, to[0], to[1], to[2], to[3], to[4], to[5], own[0], own[1], own[2], own[3],
        own[4], own[5], bssid[0], bssid[1], bssid[2], bssid[3], bssid[4], bssid[5], 0, 0,
    ]
}

// Refuses a buffer that is too short (13) before anything is put, so that no half frame is ever left.
fn put_frame(
    own: [u8; 6],
    to: [u8; 6],
    bssid: [u8; 6],
    body: &[u8],
    buffer: &mut [u8],
) -> Result<usize, Refusal>
    requires { length body.now ≤ longest_body }
    ensures { Written true (frame_to own to bssid body.now) 0 buffer.old result buffer.new }
{
    let size = header::LENGTH + body.len();
    if buffer.len() < size {
        return Err(Refusal::BufferShort);
    }
    let head = head(own, to, bssid);
    // Kept as two calls: `copy_from_slice` needs `memmove` of whoever links the library. There is room for both, so that neither is refused.
    let _ = octets::put(true, &head, buffer, 0);
    let _ = octets::put(true, body, buffer, header::LENGTH);
    Ok(size)
}

// A broken body on its way back (document 02, One): straight from the frame into the buffer, and there the category's top bit is set.
pub fn put_return(
    own: [u8; 6],
    to: [u8; 6],
    bssid: [u8; 6],
    body: &[u8],
    buffer: &mut [u8],
) -> Result<usize, Refusal>
    requires body_len_bound { length body.now ≤ longest_body }
    requires body_value { has_category body.now ≡ true }
    ensures { Written true (frame_to own to bssid (error_return body.now)) 0 buffer.old result buffer.new }
{
    let count = put_frame(own, to, bssid, body, buffer)?;
    let category = body[CATEGORY];
    buffer[header::LENGTH + CATEGORY] = category + 128;
    Ok(count)
}

// Kept beside put_report: each builds a body of its own, and put_frame is what both share.
// A TPC Report frame.
pub fn put_tpc_report(
    own: [u8; 6],
    to: [u8; 6],
    bssid: [u8; 6],
    token: u8,
    report: TpcReport,
    buffer: &mut [u8],
) -> Result<usize, Refusal>
    ensures { Written true (frame_to own to bssid (tpc_report_body token report)) 0 buffer.old result buffer.new }
{
    let mut body = [0u8; TPC_REPORT_BODY];
    single_body::write_tpc_report(token, report, &mut body, 0)?;
    put_frame(own, to, bssid, &body, buffer)
}

// A Measurement Report frame of one element.
pub fn put_report(
    own: [u8; 6],
    to: [u8; 6],
    bssid: [u8; 6],
    token: u8,
    report: Report,
    buffer: &mut [u8],
) -> Result<usize, Refusal>
    ensures { Written (report_may report) (frame_to own to bssid (body_octets report_sort token (report ∷ []))) 0 buffer.old result buffer.new }
{
    let mut body = [0u8; LONGEST_REPLY_BODY];
    let count = measurement_body::reports::append(&mut body, 0, token, report)?;
    put_frame(own, to, bssid, &body[..count], buffer)
}
