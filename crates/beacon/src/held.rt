// What may be absent, as octets: 1 and its contents where it is there, and zeros where it is not.
// Kept beside those of `boundary` and `station_record`: each has its own number of octets.
ghost use Rattle.std.specs.Prelude.{◌≡◌};
ghost use Rattle.beacon.specs.Notices.{held_power};

use element::power_constraint::PowerConstraint;

pub fn held_power(power: Option<PowerConstraint>) -> [u8; 2]
    ensures { result ≡ held_power power }
{
    match power {
        None => [0, 0],
        Some(constraint) => [1, constraint.decibels],
    }
}
