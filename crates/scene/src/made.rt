// Frames as the octets of a call make them.
ghost use Rattle.std.specs.Prelude.{◌≤◌, length};

use crate::call::Call;
use crate::verb::Form;

// How a frame begins, by its type and subtype.
const ACTION: u8 = 208;

const BEACON: u8 = 128;

const PROBE: u8 = 80;

// Where the addresses stand.
const RECEIVER: usize = 4;

const SENDER: usize = 10;

const BSSID: usize = 16;

// Where the octets of a call stand in its frame: after the header, and after the timestamp too.
const BODY: usize = 24;

const INTERVAL: usize = 32;

// How many octets the longest frame of a scene has.
// Kept: this bound stands in the contracts: a slice handed back would keep the buffer lent.
// A frame is kept as a buffer of the caller's and a length: there is no heap.
pub const LONGEST: usize = 2400;

// A receiver that is named by this first octet is all ones.
const ALL: u8 = 255;

// By whom and to whom a frame is sent.
#[derive(Clone, Copy)]
pub struct Way {
    pub by: [u8; 6],
    pub to: [u8; 6],
}

// An address by its first and its last octet.
pub fn named(first: u8, last: u8) -> [u8; 6] {
    [first, 0, 0, 0, 0, last]
}

// The receiver of frames to it.
pub fn receiver(first: u8, last: u8) -> [u8; 6] {
    if first == ALL {
        [ALL; 6]
    } else {
        named(first, last)
    }
}

// Puts octets into the frame, which has room for all that a call may have.
fn put_at(at: usize, octets: &[u8], frame: &mut [u8]) {
    let _ = octets::put(true, octets, frame, at);
}

// The octets of a call after a header with 2, 0, 0, 0, 0, 9 for the BSSID and, where there is room before `front`, a timestamp of 7.
fn headed(first: u8, front: usize, octets: &[u8], way: Way, frame: &mut [u8]) -> usize
    requires { (front ≤ 32) × (length octets.now ≤ 128) }
    ensures { result ≤ 2400 }
{
    put_at(0, &[first], frame);
    put_at(RECEIVER, &way.to, frame);
    put_at(SENDER, &way.by, frame);
    put_at(BSSID, b"\x02\0\0\0\0\x09\0\0\x07", frame);
    put_at(front, octets, frame);
    front + octets.len()
}

// Puts the frame that a call gives into zeros, and tells how long it is. A whole one is cut at the length that the call says, or zeros follow. Of the other
// forms the call has the octets from a place on, and does not spell by whom and to whom the frame is sent.
pub fn put(form: Form, call: Call, place: usize, way: Way, frame: &mut [u8]) -> usize
    requires { place ≤ 128 }
    ensures { result ≤ 2400 }
{
    let octets = call.octets_from(place);
    match form {
        Form::Whole => {
            put_at(0, call.octets_from(2), frame);
            (call.numbers[1] % 2401) as usize
        }
        Form::Action => headed(ACTION, BODY, octets, way, frame),
        Form::Beacon => headed(BEACON, INTERVAL, octets, way, frame),
        Form::Probe => headed(PROBE, INTERVAL, octets, way, frame),
    }
}
