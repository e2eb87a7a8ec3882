// Element 32, Power Constraint (7.3.2.15).
ghost use Rattle.std.specs.Prelude.{◌≡◌};
ghost use Rattle.octets.specs.Writing.{Written};
ghost use Rattle.element.specs.PowerConstraint.{power_means, power_may, power_octets};

use answer::Refusal;

pub const ID: u8 = 32;

// How far below the channel's greatest power a station stays.
#[derive(Clone, Copy)]
pub struct PowerConstraint {
    pub decibels: u8,
}

#[tactic(auto, unfolding(crate::specs::PowerConstraint::power_means, octets::specs::Elements::fixed, answer::specs::Checks::checked))]
pub fn read(contents: &[u8]) -> Result<PowerConstraint, Refusal>
    ensures { result ≡ power_means contents.now }
{
    if contents.len() != 1 {
        return Err(Refusal::WrongLength);
    }
    Ok(PowerConstraint {
        decibels: contents[0],
    })
}

#[tactic(auto, unfolding(crate::specs::PowerConstraint::power_octets))]
pub fn write(constraint: PowerConstraint, buffer: &mut [u8], at: usize) -> Result<usize, Refusal>
    ensures { Written (power_may constraint) (power_octets constraint) at buffer.old result buffer.new }
{
    let element = [ID, 1, constraint.decibels];
    octets::put(true, &element, buffer, at)
}
