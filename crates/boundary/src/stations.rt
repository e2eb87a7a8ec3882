// A station in the caller's own memory (document 02, Eight), thin over `station_record`. A range that holds no station is refused with 16.
// The replies are kept beside those of `replies`: each is a C function with parameters of its own.
ghost use Rattle.std.specs.Prelude.{◌∷◌, [], ◌≡◌, Ok};
ghost use Rattle.answer.specs.Checks.{and_then};
ghost use Rattle.answer.specs.Faults.{without_place};
ghost use Rattle.reply.specs.Replies.{tpc_reply, measurement_reply};
ghost use Rattle.station.specs.Asking.{permission_number};
ghost use Rattle.station_record.specs.Calls.{started_in, advanced_in, taken_in, asked_in};
ghost use Rattle.station_record.specs.Held.{held_in};
ghost use Rattle.station_record.specs.Records.{size};
ghost use Rattle.boundary.specs.Codes.{address_of, code_of, Given};
ghost use Rattle.boundary.specs.Findings.{finding_given};
ghost use Rattle.boundary.specs.Given.{tpc_given};
ghost use Rattle.boundary.specs.Stations.{OnStation};

use crate::{codes, given, replies};
use measured_report::Readings;

// The octets that a caller sets aside for a station.
#[unsafe(no_mangle)]
pub extern "C" fn oneiralth_station_size() -> u64
    ensures { result ≡ size }
{
    station_record::SIZE as u64
}

// The range need hold nothing yet.
#[unsafe(no_mangle)]
pub extern "C" fn oneiralth_station_start(
    own: u64,
    ap: u64,
    interval: u16,
    channel: u8,
    station: &mut [u8],
) -> u64
    ensures { OnStation (started_in (address_of own) (address_of ap) interval channel station.old) station.old result station.new }
{
    let own = codes::address(own);
    let ap = codes::address(ap);
    codes::answered(station_record::start(own, ap, interval, channel, station))
}

#[unsafe(no_mangle)]
pub extern "C" fn oneiralth_station_take(station: &mut [u8], frame: &[u8]) -> u64
    ensures { OnStation (without_place (taken_in frame.now station.old)) station.old result station.new }
{
    codes::judged(station_record::take(station, frame))
}

#[unsafe(no_mangle)]
pub extern "C" fn oneiralth_station_advance(station: &mut [u8], units: u32) -> u64
    ensures { OnStation (advanced_in units station.old) station.old result station.new }
{
    codes::answered(station_record::advance(station, units))
}

// The number of the answer.
#[unsafe(no_mangle)]
pub extern "C" fn oneiralth_station_ask(station: &[u8], units: u32) -> u64
    ensures { result ≡ code_of (and_then (asked_in units station.now) (λ p. Ok (permission_number p))) }
{
    match station_record::ask(station, units) {
        Err(refusal) => codes::refused(refusal),
        Ok(permission) => u64::from(permission.number()),
    }
}

#[unsafe(no_mangle)]
pub extern "C" fn oneiralth_station_reply_to_tpc_request(
    station: &[u8],
    frame: &[u8],
    power: u8,
    margin: u8,
    out: &mut [u8],
) -> u64
    ensures { Given (and_then (held_in station.now) (λ s. tpc_reply s.own s.ap (tpc_given power margin) frame.now)) out.old result out.new }
{
    match station_record::read(station) {
        Err(refusal) => codes::refused(refusal),
        Ok(held) => {
            let report = given::tpc(power, margin);
            codes::wrote(reply::to_tpc_request(frame, held.own, held.ap, report, out))
        }
    }
}

#[unsafe(no_mangle)]
pub extern "C" fn oneiralth_station_reply_to_measurement_request(
    station: &[u8],
    frame: &[u8],
    index: usize,
    found: u8,
    value: u32,
    t0: u32,
    t1: u32,
    t2: u32,
    t3: u32,
    t4: u32,
    t5: u32,
    t6: u32,
    t7: u32,
    out: &mut [u8],
) -> u64
    ensures { Given (and_then (held_in station.now) (λ s. measurement_reply s.own s.ap s.clock index (record { finding = finding_given found value; times = t0 ∷ t1 ∷ t2 ∷ t3 ∷ t4 ∷ t5 ∷ t6 ∷ t7 ∷ [] }) frame.now)) out.old result out.new }
{
    match station_record::read(station) {
        Err(refusal) => codes::refused(refusal),
        Ok(held) => {
            let readings = Readings {
                finding: replies::finding(found, value),
                times: [t0, t1, t2, t3, t4, t5, t6, t7],
            };
            codes::wrote(reply::to_measurement_request(
                frame, held.own, held.ap, held.clock, index, readings, out,
            ))
        }
    }
}
