// The clock goes on in place (document 02, Eight): an advance changes the clock's octets, and at a switch what the switch clears; no more is copied.
ghost use Rattle.std.specs.Prelude.{◌∷◌, [], ◌≡◌, ◌≤◌, length, None};
ghost use Rattle.answer.specs.Checks.{answer_of};
ghost use Rattle.octets.specs.Numbers.{split};
ghost use Rattle.octets.specs.Writing.{over};
ghost use Rattle.station_record.specs.Calls.{relaid, advanced_in};
ghost use Rattle.station_record.specs.Records.{size, state_octets};

use crate::{judging, laying, reading};
use answer::Refusal;
use station::Advanced;

// The clock tells another moment.
fn tell(moment: u32, memory: &mut [u8])
    requires { size ≤ length memory.old }
    ensures { memory.new ≡ over memory.old 4 (split 4 moment) }
{
    memory[crate::CLOCK..crate::OWN].copy_from_slice(&octets::octets32(moment));
}

// On another channel nothing of the old one holds.
fn switch(channel: u8, memory: &mut [u8])
    requires { size ≤ length memory.old }
    ensures { memory.new ≡ over (over memory.old 1 (channel ∷ [])) 20 (state_octets None None 0 0) }
{
    memory[crate::CHANNEL] = channel;
    laying::lay_state(None, None, 0, 0, memory);
}

// An advance. Where it is refused every octet stays.
#[tactic(auto, using(crate::proofs::Advancing::steps))]
pub fn advance(memory: &mut [u8], units: u32) -> Result<(), Refusal>
    ensures value { result ≡ answer_of (advanced_in units memory.old) }
    ensures memory_after { memory.new ≡ relaid memory.old (advanced_in units memory.old) }
{
    if judging::is_broken(memory) {
        return Err(Refusal::Impossible);
    }
    let clock = octets::number32(memory, crate::CLOCK);
    let pending = reading::pending_in(memory);
    match station::advance_clock(clock, pending, units)? {
        Advanced::Goes(moment) => tell(moment, memory),
        Advanced::Switches { moment, channel } => {
            tell(moment, memory);
            switch(channel, memory);
        }
    }
    Ok(())
}
