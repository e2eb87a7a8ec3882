// A station's record, put into its keeper's octets.
ghost use Rattle.std.specs.Prelude.{◌≡◌, ◌≤◌, ◌+◌, length};
ghost use Rattle.beacon.specs.Beacons.{quiet_limit};
ghost use Rattle.octets.specs.Writing.{over, filled};
ghost use Rattle.station.specs.Validity.{Valid};
ghost use Rattle.station_record.specs.Records.{size, settings_octets, held_pending, state_octets, slot_length, slot_octets, slots_of, record_of};

use element::power_constraint::PowerConstraint;
use pending::Switch;
use schedule::Schedule;
use station::Station;

// What a station is started with, its clock and its channel.
// Kept: the size stands in the contracts: the octets are the keeper's, of any length, and only who lays a record knows that they suffice.
fn lay_settings(station: &Station, memory: &mut [u8])
    requires { size ≤ length memory.old }
    ensures { memory.new ≡ over memory.old 0 (settings_octets station.now.own station.now.ap station.now.interval station.now.clock station.now.channel) }
{
    memory[..crate::INTERVAL].copy_from_slice(&[crate::VERSION, station.channel]);
    memory[crate::INTERVAL..crate::CLOCK].copy_from_slice(&octets::octets16(station.interval));
    memory[crate::CLOCK..crate::OWN].copy_from_slice(&octets::octets32(station.clock));
    memory[crate::OWN..crate::AP].copy_from_slice(&station.own);
    memory[crate::AP..crate::POWER].copy_from_slice(&station.ap);
}

// A pending switch, or zeros where there is none.
// Kept beside `beacon::held_power`: this one has eleven octets, and puts them in place.
#[tactic(auto, using(crate::proofs::Laid::pending_put))]
fn lay_pending(pending: Option<Switch>, memory: &mut [u8])
    requires { size ≤ length memory.old }
    ensures { memory.new ≡ over memory.old 22 (held_pending pending) }
{
    match pending {
        None => memory[crate::PENDING..crate::UNTIL].fill(0),
        Some(switch) => {
            memory[crate::PENDING..crate::MOMENT].copy_from_slice(&[
                1,
                switch.mode,
                switch.channel,
            ]);
            memory[crate::MOMENT..crate::UNTIL].copy_from_slice(&octets::octets64(switch.at));
        }
    }
}

// What it has heard: constraint, pending switch, what runs on, and how many schedules are in use.
pub fn lay_state(
    power: Option<PowerConstraint>,
    pending: Option<Switch>,
    until: u64,
    count: u8,
    memory: &mut [u8],
)
    requires { size ≤ length memory.old }
    ensures { memory.new ≡ over memory.old 20 (state_octets power pending until count) }
{
    memory[crate::POWER..crate::PENDING].copy_from_slice(&beacon::held_power(power));
    lay_pending(pending, memory);
    memory[crate::UNTIL..crate::COUNT].copy_from_slice(&octets::octets64(until));
    memory[crate::COUNT] = count;
}

// One schedule, from a place on.
fn lay_slot(schedule: Schedule, at: usize, memory: &mut [u8])
    requires { at + slot_length ≤ length memory.old }
    ensures { memory.new ≡ over memory.old at (slot_octets schedule) }
{
    memory[at..at + 8].copy_from_slice(&octets::octets64(schedule.start));
    memory[at + 8..at + 16].copy_from_slice(&octets::octets64(schedule.period));
    memory[at + 16..at + 18].copy_from_slice(&octets::octets16(schedule.duration));
}

// The schedules, one after the other.
fn lay_slots(schedules: &[Schedule], memory: &mut [u8])
    requires { (length schedules.now ≤ quiet_limit) × (size ≤ length memory.old) }
    ensures { memory.new ≡ over memory.old 42 (slots_of schedules.now) }
{
    for (slot, schedule) in schedules.iter().enumerate() {
        lay_slot(*schedule, crate::SLOTS + crate::SLOT * slot, memory);
    }
}

// The whole record. What stands after it stays.
pub fn lay(station: &Station, memory: &mut [u8])
    requires valid { Valid station.now }
    requires size_in_bounds { size ≤ length memory.old }
    ensures { memory.new ≡ filled (record_of station.now) memory.old }
{
    lay_settings(station, memory);
    lay_state(
        station.power,
        station.pending,
        station.until,
        station.count as u8,
        memory,
    );
    lay_slots(&station.schedules[..station.count], memory);
}
