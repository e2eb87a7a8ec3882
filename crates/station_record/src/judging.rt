// Whether octets are the record of a station.
ghost use Rattle.std.specs.Prelude.{◌≡◌};
ghost use Rattle.octets.specs.Numbers.{octet, octets_from, number};
ghost use Rattle.station.specs.Starting.{start_forbids};
ghost use Rattle.station_record.specs.Held.{power_broken, switch_broken, no_record};

use crate::reading;
use pending::Switch;
use station::Station;

// Settings that no station is started with.
fn is_start_broken(memory: &[u8]) -> bool
    ensures { result ≡ start_forbids (octets_from 6 8 memory.now) (octets_from 6 14 memory.now) (number 2 2 memory.now) (octet 1 memory.now) }
{
    let own = octets::address_at(memory, crate::OWN);
    let ap = octets::address_at(memory, crate::AP);
    let interval = octets::number16(memory, crate::INTERVAL);
    let channel = octets::octet_at(memory, crate::CHANNEL);
    Station::is_bad_start(own, ap, interval, channel)
}

// A Power Constraint that is neither there nor zeros.
fn is_power_broken(memory: &[u8]) -> bool
    ensures { result ≡ power_broken memory.now }
{
    match octets::octet_at(memory, crate::POWER) {
        0 => octets::octet_at(memory, crate::POWER + 1) != 0,
        flag => flag != 1,
    }
}

// A switch that is neither zeros nor one that may be pending at the clock.
fn is_switch_broken(switch: Switch, flag: u8, clock: u32) -> bool
    ensures { result ≡ switch_broken switch flag clock }
{
    if flag == 0 {
        // Kept field by field: equality of a Switch is asked nowhere else.
        return switch.at != 0 || switch.mode != 0 || switch.channel != 0;
    }
    flag != 1
        || switch.at <= u64::from(clock)
        || 1 < switch.mode
        || Station::CHANNEL_LIMIT < switch.channel
}

// Too few octets, another version, settings that no station is started with, or a state that no valid station has.
#[tactic(auto, unfolding(crate::specs::Held::no_record))]
pub fn is_broken(memory: &[u8]) -> bool
    ensures { result ≡ no_record memory.now }
{
    memory.len() < crate::SIZE
        || octets::octet_at(memory, 0) != crate::VERSION
        || is_start_broken(memory)
        || is_power_broken(memory)
        || is_switch_broken(
            reading::switch_in(memory),
            octets::octet_at(memory, crate::PENDING),
            octets::number32(memory, crate::CLOCK),
        )
        || Station::SCHEDULE_LIMIT < usize::from(octets::octet_at(memory, crate::COUNT))
}
