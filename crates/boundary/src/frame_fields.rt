// A frame as its fields, each at its place (docs/BOUNDARY.md). What a kind has not got is 0.
ghost use Rattle.std.specs.Prelude.{◌≡◌};
ghost use Rattle.boundary.specs.FrameFields.{flag, fields, fields_of, held_report, held_switch, received_octets};

use beacon::Notice;
use element::channel_switch::ChannelSwitch;
use element::tpc_report::TpcReport;
use frame::{Frame, Received};

// Where the fields stand after the first three, which are the kind, whether the frame went to all ones and the dialog token; and how many octets they all are.
const ELEMENTS: usize = 3;

const QUIETS: usize = 11;

const TIMESTAMP: usize = 19;

const CAPABILITY: usize = 27;

const POWER: usize = 29;

const REPORT: usize = 31;

const SWITCH: usize = 34;

pub const LENGTH: usize = 38;

// What the seven kinds have in common: the kind's number, its token, how many measurement elements it has, and what it says of a notice's fields.
// Kept as a number: the kind is the first octet that C reads (docs/BOUNDARY.md).
#[derive(Clone, Copy)]
pub struct Fields {
    pub kind: u8,
    pub token: u8,
    pub elements: u64,
    pub notice: Notice,
}

fn common(kind: u8, token: u8, elements: u64, notice: Notice) -> Fields
    ensures { result ≡ fields kind token elements notice }
{
    Fields {
        kind,
        token,
        elements,
        notice,
    }
}

pub fn of_frame(frame: Frame) -> Fields
    ensures { result ≡ fields_of frame }
{
    match frame {
        Frame::Beacon(notice) => common(0, 0, 0, notice),
        Frame::ProbeResponse(notice) => common(1, 0, 0, notice),
        Frame::MeasurementRequest { token, count } => {
            common(2, token, count as u64, Notice::NOTHING)
        }
        Frame::MeasurementReport { token, count } => {
            common(3, token, count as u64, Notice::NOTHING)
        }
        Frame::TpcRequest { token } => common(4, token, 0, Notice::NOTHING),
        Frame::TpcReport { token, report } => {
            let notice = Notice {
                report: Some(report),
                ..Notice::NOTHING
            };
            common(5, token, 0, notice)
        }
        Frame::ChannelSwitch(switch) => {
            let notice = Notice {
                switch: Some(switch),
                ..Notice::NOTHING
            };
            common(6, 0, 0, notice)
        }
    }
}

// What may be absent: 1 and its contents where it is there, and zeros where it is not, as a Power Constraint (`beacon::held_power`).
// Kept beside one another: each has its own number of octets, and one over a trait would be longer than these.
fn held_report(report: Option<TpcReport>) -> [u8; 3]
    ensures { result ≡ held_report report }
{
    match report {
        None => [0, 0, 0],
        Some(told) => [
            1,
            octets::from_signed(told.power),
            octets::from_signed(told.margin),
        ],
    }
}

fn held_switch(switch: Option<ChannelSwitch>) -> [u8; 4]
    ensures { result ≡ held_switch switch }
{
    match switch {
        None => [0, 0, 0, 0],
        Some(announcement) => [
            1,
            announcement.mode,
            announcement.channel,
            announcement.count,
        ],
    }
}

// 1 for yes.
pub fn flag(answer: bool) -> u8
    ensures { result ≡ flag answer }
{
    u8::from(answer)
}

// The fields of what was received.
pub fn of_received(received: Received) -> [u8; LENGTH]
    ensures { result ≡ received_octets received }
{
    let common = of_frame(received.frame);
    let notice = common.notice;
    let mut fields = [0; LENGTH];
    fields[..ELEMENTS].copy_from_slice(&[common.kind, flag(received.broadcast), common.token]);
    fields[ELEMENTS..QUIETS].copy_from_slice(&octets::octets64(common.elements));
    fields[QUIETS..TIMESTAMP].copy_from_slice(&octets::octets64(received.count as u64));
    fields[TIMESTAMP..CAPABILITY].copy_from_slice(&octets::octets64(notice.timestamp));
    fields[CAPABILITY..POWER].copy_from_slice(&octets::octets16(notice.capability));
    fields[POWER..REPORT].copy_from_slice(&beacon::held_power(notice.power));
    fields[REPORT..SWITCH].copy_from_slice(&held_report(notice.report));
    fields[SWITCH..].copy_from_slice(&held_switch(notice.switch));
    fields
}
