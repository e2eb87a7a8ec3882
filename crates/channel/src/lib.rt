// Channels and their centre frequencies (document 01, "Numbers that hold"; 802.11h 17.3.8.3.3).
#![tactic(auto)]

ghost use Rattle.std.specs.Prelude.{◌≡◌};
ghost use Rattle.channel.specs.Centres.{centre_of};

use answer::Refusal;

// The highest channel number.
pub const HIGHEST: u8 = 200;

// The centre of channel 0, and how far the next channel's lies above, in MHz.
const LOWEST_CENTRE: u16 = 5000;

const STEP: u16 = 5;

// The centre of a channel, worked out (document 02, Three); over 200 there is none.
#[tactic(auto, unfolding(crate::specs::Centres::centre_of, answer::specs::Checks::checked))]
pub fn centre(channel: u8) -> Result<u16, Refusal>
    ensures { result ≡ centre_of channel }
{
    if HIGHEST < channel {
        return Err(Refusal::Impossible);
    }
    Ok(LOWEST_CENTRE + STEP * u16::from(channel))
}
