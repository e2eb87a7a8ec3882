// Where a frame broke (document 02, One): bodies count their octets from their own first one, and the header stands before it.
ghost use Rattle.std.specs.Prelude.{◌≡◌, ◌≤◌, length, IfOk, IfErr};
ghost use Rattle.answer.specs.Faults.{fault_past, nowhere, placed_past};
ghost use Rattle.beacon.specs.IbssBeacons.{told_where};
ghost use Rattle.beacon.specs.Laid.{laid};
ghost use Rattle.frame.specs.Actions.{action_means};
ghost use Rattle.frame.specs.CodeTerms.Located.{OffsetWithin, located};
ghost use Rattle.header.specs.Headers.{header_length, body_of, header_means};
ghost use Rattle.measurement_body.specs.Bodies.{longest_body};

use crate::bodies;
use crate::bodies::Located;
use answer::Fault;
use beacon::Heard;
use header::{Cell, Head};

// The header of a frame. One that is refused by it broke at no octet, and the body of any other is no longer than a body may be.
// Kept: how long a body may be stands in the contracts, since a body is a slice of the frame, which has no type of its own.
pub fn read_head(frame: &[u8], cell: Cell, own: [u8; 6], bssid: [u8; 6]) -> Result<Head, Fault>
    ensures means { result ≡ nowhere (header_means cell own bssid frame.now) }
    ensures short { IfOk result (λ head. length (body_of frame.now) ≤ longest_body) }
{
    header::read(frame, cell, own, bssid).map_err(Fault::nowhere)
}

// A body's fault, as the frame's.
fn fault_in_frame(fault: Fault) -> Fault
    requires { OffsetWithin longest_body fault.offset }
    ensures { result ≡ fault_past header_length fault }
{
    match fault.offset {
        None => fault,
        Some(before) => Fault::at(fault.refusal, header::LENGTH + before),
    }
}

// What a body was read as, with the header before it.
fn in_frame<T: Copy>(read: Result<T, Fault>) -> Result<T, Fault>
    requires { IfErr read (λ fault. OffsetWithin longest_body fault.offset) }
    ensures { result ≡ placed_past header_length read }
{
    read.map_err(fault_in_frame)
}

// The body of a beacon or a probe response in its frame, as `beacon::read` reads it.
pub fn beacon_body(body: &[u8], interval: u16, ibss: bool, index: usize) -> Result<Heard, Fault>
    requires { length body.now ≤ longest_body }
    ensures { result ≡ placed_past header_length (laid index (told_where ibss interval body.now)) }
{
    in_frame(beacon::read(body, interval, ibss, index))
}

// The body of an action frame in its frame, and the place in that body of its measurement element at an index.
pub fn action_body(body: &[u8], index: usize) -> Result<Located, Fault>
    requires { length body.now ≤ longest_body }
    ensures { result ≡ placed_past header_length (located index body.now (action_means body.now)) }
{
    in_frame(bodies::read_at(body, index))
}
