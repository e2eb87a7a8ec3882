// Element 37, Channel Switch Announcement (7.3.2.20).
ghost use Rattle.std.specs.Prelude.{◌≡◌};
ghost use Rattle.octets.specs.Writing.{Written};
ghost use Rattle.element.specs.ChannelSwitch.{switch_forbids, switch_means, switch_may, switch_octets};

use answer::Refusal;

pub const ID: u8 = 37;

// With mode 1 nothing is sent until the switch; the count is in TBTTs.
#[derive(Clone, Copy)]
pub struct ChannelSwitch {
    pub mode: u8,
    pub channel: u8,
    pub count: u8,
}

// The mode is over 1, or the channel is over 200.
fn is_forbidden(switch: ChannelSwitch) -> bool
    ensures { result ≡ switch_forbids switch }
{
    1 < switch.mode || channel::HIGHEST < switch.channel
}

#[tactic(auto, unfolding(crate::specs::ChannelSwitch::switch_means, octets::specs::Elements::fixed, answer::specs::Checks::checked))]
pub fn read(contents: &[u8]) -> Result<ChannelSwitch, Refusal>
    ensures { result ≡ switch_means contents.now }
{
    if contents.len() != 3 {
        return Err(Refusal::WrongLength);
    }
    let switch = ChannelSwitch {
        mode: contents[0],
        channel: contents[1],
        count: contents[2],
    };
    if is_forbidden(switch) {
        return Err(Refusal::ForbiddenValue);
    }
    Ok(switch)
}

// Whether the reader would take the announcement back.
pub fn may_write(switch: ChannelSwitch) -> bool
    ensures { result ≡ switch_may switch }
{
    !is_forbidden(switch)
}

#[tactic(auto, unfolding(crate::specs::ChannelSwitch::switch_octets))]
pub fn write(switch: ChannelSwitch, buffer: &mut [u8], at: usize) -> Result<usize, Refusal>
    ensures { Written (switch_may switch) (switch_octets switch) at buffer.old result buffer.new }
{
    let element = [ID, 3, switch.mode, switch.channel, switch.count];
    octets::put(may_write(switch), &element, buffer, at)
}
