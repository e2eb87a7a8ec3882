// A station in its keeper's memory (document 02, Eight): "the record is lent and changed there". The record is octets at one address, laid out as
// `record_of` says, and each call on it does what the call by value does on the station that it holds. Octets that hold none are refused with 16.
#![tactic(auto)]

mod judging;
mod laying;
mod reading;
mod stepping;

ghost use Rattle.std.specs.Prelude.{◌≡◌};
ghost use Rattle.answer.specs.Checks.{answer_of};
ghost use Rattle.answer.specs.Faults.{verdict_of};
ghost use Rattle.station_record.specs.Calls.{relaid, started_in, taken_in, asked_in};

use answer::{Fault, Refusal};
pub use reading::read;
use station::{Permission, Station};
pub use stepping::advance;

// The first octet of a record: another layout would have another.
const VERSION: u8 = 1;

// The octets that a keeper sets aside: room for sixteen schedules, so that it need not grow with a later version.
pub const SIZE: usize = 336;

// Where each field stands, and the moment of a pending switch.
const CHANNEL: usize = 1;

const INTERVAL: usize = 2;

const CLOCK: usize = 4;

const OWN: usize = 8;

const AP: usize = 14;

const POWER: usize = 20;

const PENDING: usize = 22;

const MOMENT: usize = 25;

const UNTIL: usize = 33;

const COUNT: usize = 41;

const SLOTS: usize = 42;

// The octets of a schedule.
const SLOT: usize = 18;

// A station at moment 0 that has heard nothing, into octets that need hold nothing yet.
#[tactic(auto, using(crate::proofs::Outcomes::start_refused, crate::proofs::Outcomes::no_room, crate::proofs::Outcomes::has_room))]
pub fn start(
    own: [u8; 6],
    ap: [u8; 6],
    interval: u16,
    channel: u8,
    memory: &mut [u8],
) -> Result<(), Refusal>
    ensures value { result ≡ answer_of (started_in own ap interval channel memory.old) }
    ensures memory_after { memory.new ≡ relaid memory.old (started_in own ap interval channel memory.old) }
{
    let station = Station::start(own, ap, interval, channel)?;
    if memory.len() < SIZE {
        return Err(Refusal::BufferShort);
    }
    laying::lay(&station, memory);
    Ok(())
}

// A frame. One that is refused leaves every octet.
#[tactic(auto, using(crate::proofs::Holding::held_room))]
pub fn take(memory: &mut [u8], frame: &[u8]) -> Result<(), Fault>
    ensures value { result ≡ verdict_of (taken_in frame.now memory.old) }
    ensures memory_after { memory.new ≡ relaid memory.old (taken_in frame.now memory.old) }
{
    let station = reading::read(memory).map_err(Fault::nowhere)?;
    let taken = station.take(frame);
    taken.verdict?;
    laying::lay(&taken.station, memory);
    Ok(())
}

// A question: nothing of the record changes by it.
pub fn ask(memory: &[u8], units: u32) -> Result<Permission, Refusal>
    ensures { result ≡ asked_in units memory.now }
{
    Ok(reading::read(memory)?.ask(units))
}
