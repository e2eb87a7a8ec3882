// Frames: who sends them to whom in a scene, and frames as they are read, in words and numbers on a line.
ghost use Rattle.std.specs.Prelude.{◌≤◌};

use crate::{AP, INTERVAL, OWN};
use element::ibss_dfs::IbssDfs;
use frame::{Frame, Received};
use scene::call::Call;
use scene::made::{LONGEST, Way};
use scene::page::Page;
use scene::verb::Form;
use scene::{answers, fields, made, say};
use std::io::Write;

// Kept as three: they differ in who sends, who receives and where the frame's numbers begin, and each is one call.
// A frame of the AP to the station.
pub fn of_ap(form: Form, call: Call, frame: &mut [u8]) -> usize
    ensures { result ≤ 2400 }
{
    made::put(form, call, 1, Way { by: AP, to: OWN }, frame)
}

// A frame in the IBSS to the station, of the sender that the call names at a place.
pub fn of_member(form: Form, call: Call, place: usize, frame: &mut [u8]) -> usize
    requires { place ≤ 2 }
    ensures { result ≤ 2400 }
{
    let by = made::named(OWN[0], call.octets[place]);
    made::put(form, call, place + 1, Way { by, to: OWN }, frame)
}

// A frame of the AP to the receiver that the call names first.
pub fn to_row(form: Form, call: Call, frame: &mut [u8]) -> usize
    ensures { result ≤ 2400 }
{
    let to = made::receiver(call.octets[1], call.octets[2]);
    made::put(form, call, 3, Way { by: AP, to }, frame)
}

// A frame of an exchange, and its dialog token.
fn exchanged<W: Write>(page: &mut Page<W>, word: &[u8], token: u8) {
    say::text(page, word);
    say::octet(page, token);
}

// By its kind, each with its own fields.
fn kind<W: Write>(page: &mut Page<W>, frame: Frame) {
    match frame {
        Frame::Beacon(notice) => {
            say::text(page, b" beacon");
            fields::notice(page, notice);
        }
        Frame::ProbeResponse(notice) => {
            say::text(page, b" probe response");
            fields::notice(page, notice);
        }
        Frame::MeasurementRequest { token, count } => {
            exchanged(page, b" measurement request", token);
            say::number(page, count as u64);
        }
        Frame::MeasurementReport { token, count } => {
            exchanged(page, b" measurement report", token);
            say::number(page, count as u64);
        }
        Frame::TpcRequest { token } => exchanged(page, b" tpc request", token),
        Frame::TpcReport { token, report } => {
            exchanged(page, b" tpc report", token);
            fields::report(page, report);
        }
        Frame::ChannelSwitch(switch) => fields::switch(page, switch),
    }
}

// The answer's number, and whether the frame went to all.
fn accepted<W: Write>(page: &mut Page<W>, broadcast: bool) {
    say::number(page, 0);
    if broadcast {
        say::text(page, b" to all");
    }
}

// As document 01's station reads it: the answer, the frame and its Quiet elements.
pub fn read<W: Write>(page: &mut Page<W>, form: Form, call: Call) {
    let mut octets = [0u8; LONGEST];
    let length = of_ap(form, call, &mut octets);
    match frame::read(&octets[0..length], OWN, AP, INTERVAL) {
        Err(fault) => answers::fault(page, fault),
        Ok(received) => {
            accepted(page, received.broadcast);
            kind(page, received.frame);
            fields::quiets(page, received.quiets, received.count);
        }
    }
}

// A frame in an IBSS that is read: its sender and element 41 too.
fn received<W: Write>(
    page: &mut Page<W>,
    received: Received,
    sender: [u8; 6],
    dfs: Option<IbssDfs>,
) {
    accepted(page, received.broadcast);
    say::text(page, b" from");
    say::octets(page, &sender);
    kind(page, received.frame);
    if let Some(dfs) = dfs {
        fields::dfs(page, dfs);
    }
    fields::quiets(page, received.quiets, received.count);
}

// As a station of an IBSS reads it.
pub fn read_in_ibss<W: Write>(page: &mut Page<W>, form: Form, call: Call) {
    let mut octets = [0u8; LONGEST];
    let length = of_member(form, call, 1, &mut octets);
    let heard = frame::read_in_ibss(&octets[0..length], OWN, AP, INTERVAL);
    match heard.received {
        Err(fault) => answers::fault(page, fault),
        Ok(it) => received(page, it, heard.sender, heard.dfs),
    }
}

// A pair of a beacon's element 41, by its index: the answer's number, and the pair's channel and map.
pub fn pair<W: Write>(page: &mut Page<W>, call: Call) {
    let mut octets = [0u8; LONGEST];
    let length = of_member(Form::Beacon, call, 2, &mut octets);
    let index = call.numbers[1] as usize;
    let found = frame::dfs_pair_at(&octets[0..length], OWN, AP, INTERVAL, index);
    answers::given(page, found, |page, pair| {
        say::octet(page, pair.channel);
        say::octet(page, pair.map);
    });
}
