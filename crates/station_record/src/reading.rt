// What a record holds, field by field.
ghost use Rattle.std.specs.Prelude.{◌≡◌, ◌≤◌, IfOk};
ghost use Rattle.beacon.specs.Beacons.{quiet_limit};
ghost use Rattle.station.specs.Stations.{slotted};
ghost use Rattle.station.specs.Validity.{Valid};
ghost use Rattle.station_record.specs.Held.{power_at, switch_at, pending_at, schedule_at, schedules_from, held_in};
ghost use Rattle.station_record.specs.Records.{head_length};

use crate::judging;
use answer::Refusal;
use element::power_constraint::PowerConstraint;
use pending::Switch;
use schedule::Schedule;
use station::Station;

fn power_in(memory: &[u8]) -> Option<PowerConstraint>
    ensures { result ≡ power_at memory.now }
{
    if octets::octet_at(memory, crate::POWER) == 0 {
        return None;
    }
    let decibels = octets::octet_at(memory, crate::POWER + 1);
    Some(PowerConstraint { decibels })
}

pub fn switch_in(memory: &[u8]) -> Switch
    ensures { result ≡ switch_at memory.now }
{
    Switch {
        at: octets::number64(memory, crate::MOMENT),
        mode: octets::octet_at(memory, crate::PENDING + 1),
        channel: octets::octet_at(memory, crate::PENDING + 2),
    }
}

pub fn pending_in(memory: &[u8]) -> Option<Switch>
    ensures { result ≡ pending_at memory.now }
{
    if octets::octet_at(memory, crate::PENDING) == 0 {
        return None;
    }
    Some(switch_in(memory))
}

// The schedule from a place on.
fn schedule_in(memory: &[u8], at: usize) -> Schedule
    requires { at ≤ 168 }
    ensures { result ≡ schedule_at at memory.now }
{
    Schedule {
        start: octets::number64(memory, at),
        period: octets::number64(memory, at + 8),
        duration: octets::number16(memory, at + 16),
    }
}

// So many schedules, in their slots.
#[tactic(auto, unfolding(crate::specs::Held::schedules_from), using(crate::proofs::SlotBySlot::next_read))]
fn schedules_in(memory: &[u8], count: usize) -> [Schedule; Station::SCHEDULE_LIMIT]
    requires { count ≤ quiet_limit }
    ensures { result ≡ slotted (schedules_from count head_length memory.now) }
{
    let mut schedules = [Station::NO_SCHEDULE; Station::SCHEDULE_LIMIT];
    for slot in 0..count {
        schedules[slot] = schedule_in(memory, crate::SLOTS + crate::SLOT * slot);
    }
    schedules
}

// The station that a record holds; octets that hold none are 16.
#[tactic(auto, using(crate::proofs::Holding::held_none, crate::proofs::Holding::held_some, crate::proofs::Holding::held_few, crate::proofs::Layouts::held_valid))]
pub fn read(memory: &[u8]) -> Result<Station, Refusal>
    ensures value { result ≡ held_in memory.now }
    ensures valid { IfOk result Valid }
{
    if judging::is_broken(memory) {
        return Err(Refusal::Impossible);
    }
    let count = usize::from(octets::octet_at(memory, crate::COUNT));
    Ok(Station {
        own: octets::address_at(memory, crate::OWN),
        ap: octets::address_at(memory, crate::AP),
        interval: octets::number16(memory, crate::INTERVAL),
        clock: octets::number32(memory, crate::CLOCK),
        channel: octets::octet_at(memory, crate::CHANNEL),
        power: power_in(memory),
        pending: pending_in(memory),
        schedules: schedules_in(memory, count),
        count,
        until: octets::number64(memory, crate::UNTIL),
    })
}
