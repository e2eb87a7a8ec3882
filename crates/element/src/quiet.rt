// Element 40, Quiet (7.3.2.23).
ghost use Rattle.std.specs.Prelude.{◌≡◌};
ghost use Rattle.octets.specs.Writing.{Written};
ghost use Rattle.element.specs.Quiet.{quiet_forbids, quiet_means, quiet_may, quiet_octets};

use answer::Refusal;

pub const ID: u8 = 40;

// An interval in which nothing is sent: how many TBTTs away, every how many, how long in TU, how far past the TBTT in TU.
#[derive(Clone, Copy)]
pub struct Quiet {
    pub count: u8,
    pub period: u8,
    pub duration: u16,
    pub offset: u16,
}

// The count is 0, which is reserved, or the offset is not within the beacon interval.
fn is_forbidden(quiet: Quiet, interval: u16) -> bool
    ensures { result ≡ quiet_forbids interval quiet }
{
    quiet.count == 0 || interval <= quiet.offset
}

#[tactic(auto, unfolding(crate::specs::Quiet::quiet_means, octets::specs::Elements::fixed, answer::specs::Checks::checked))]
pub fn read(contents: &[u8], interval: u16) -> Result<Quiet, Refusal>
    ensures { result ≡ quiet_means interval contents.now }
{
    if contents.len() != 6 {
        return Err(Refusal::WrongLength);
    }
    let quiet = Quiet {
        count: contents[0],
        period: contents[1],
        duration: octets::number16(contents, 2),
        offset: octets::number16(contents, 4),
    };
    if is_forbidden(quiet, interval) {
        return Err(Refusal::ForbiddenValue);
    }
    Ok(quiet)
}

#[tactic(auto, unfolding(crate::specs::Quiet::quiet_octets))]
pub fn write(quiet: Quiet, interval: u16, buffer: &mut [u8], at: usize) -> Result<usize, Refusal>
    ensures { Written (quiet_may interval quiet) (quiet_octets quiet) at buffer.old result buffer.new }
{
    let duration = octets::octets16(quiet.duration);
    let offset = octets::octets16(quiet.offset);
    // Kept as one literal, in the order of the octets: by slices each number would need its place.
    let element = [
        ID,
        6,
        quiet.count,
        quiet.period,
        duration[0],
        duration[1],
        offset[0],
        offset[1],
    ];
    octets::put(!is_forbidden(quiet, interval), &element, buffer, at)
}
