// What every management frame must be (document 01, "Answer numbers", 1 to 3; the base standard's header, with 802.11h 7.2.3).
ghost use Rattle.std.specs.Prelude.{◌≡◌};
ghost use Rattle.header.specs.Headers.{subtype_in, has_foreign_flag, foreign_but_for_subtype, management_means};

use answer::Refusal;

// The octets of a header, and the most that a frame has.
pub const LENGTH: usize = 24;

pub const LONGEST_FRAME: usize = 2336;

// The frames that are read.
#[derive(Clone, Copy)]
pub enum Subtype {
    ProbeResponse,
    Beacon,
    Action,
}

impl TryFrom<u8> for Subtype {
    type Error = Refusal;

    ghost try_from_gives = { λ number gives. gives ≡ subtype_in number };

    #[tactic(auto, unfolding(answer::specs::Checks::checked))]
    fn try_from(number: u8) -> Result<Subtype, Refusal> {
        match number {
            5 => Ok(Subtype::ProbeResponse),
            8 => Ok(Subtype::Beacon),
            13 => Ok(Subtype::Action),
            _ => Err(Refusal::ForeignHeader),
        }
    }
}

// To DS, From DS, More Fragments and Protected; the other flags are not looked at.
fn has_foreign_flag(flags: u8) -> bool
    ensures { result ≡ has_foreign_flag flags }
{
    flags % 2 == 1 || flags / 2 % 2 == 1 || flags / 4 % 2 == 1 || flags / 64 % 2 == 1
}

// The version or the type is not 0, such a flag is set, or the fragment number is not 0.
#[tactic(auto, unfolding(crate::specs::Headers::foreign_but_for_subtype))]
fn is_foreign(frame: &[u8]) -> bool
    ensures { result ≡ foreign_but_for_subtype frame.now }
{
    let control = octets::octet_at(frame, 0);
    control % 4 != 0
        || control / 4 % 4 != 0
        || has_foreign_flag(octets::octet_at(frame, 1))
        || octets::octet_at(frame, 22) % 16 != 0
}

// Which of the frames that are read it is, whoever sent it and to whom.
#[tactic(auto, unfolding(crate::specs::Headers::management_means, crate::specs::Headers::foreign_header, crate::specs::Headers::foreign_but_for_subtype, answer::specs::Checks::checked))]
pub fn read_management(frame: &[u8]) -> Result<Subtype, Refusal>
    ensures { result ≡ management_means frame.now }
{
    if frame.len() < LENGTH {
        return Err(Refusal::TooShort);
    }
    if LONGEST_FRAME < frame.len() {
        return Err(Refusal::TooLong);
    }
    if is_foreign(frame) {
        return Err(Refusal::ForeignHeader);
    }
    let control = octets::octet_at(frame, 0);
    Subtype::try_from(control / 16)
}
