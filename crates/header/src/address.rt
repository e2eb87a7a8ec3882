// Whose a frame must be (document 01, "Answer numbers", 4; 02, Five).
ghost use Rattle.std.specs.Prelude.{◌≡◌, [], ◌∷◌, ◌≤◌};
ghost use Rattle.octets.specs.Numbers.{octets_from};
ghost use Rattle.header.specs.Headers.{same, da, sa, to_all, foreign_sender, foreign_address, address_means};

use answer::Refusal;

// Whose frames a station takes: its AP's, whose address is the BSSID (document 01), or those of any member of its IBSS (document 02, Five).
// Kept as an enum: only `is_foreign_sender` and `reply` match on it, and a trait would be longer.
#[derive(Clone, Copy)]
pub enum Cell {
    Ap,
    Ibss,
}

// Where the header has its addresses.
const DA: usize = 4;

const SA: usize = 10;

const BSSID: usize = 16;

// Whether six octets from a place on are an address.
fn is_address(frame: &[u8], at: usize, address: [u8; 6]) -> bool
    requires { at ≤ 16 }
    ensures { result ≡ same (octets_from 6 at frame.now) address }
{
    octets::address_at(frame, at) == address
}

// Whether the frame was sent to all ones: compared as two numbers, since beacons are sent so.
#[tactic(auto, using(crate::proofs::Addresses::two_highest))]
fn is_to_all(frame: &[u8]) -> bool
    ensures { result ≡ to_all frame.now }
{
    octets::number32(frame, DA) == u32::MAX && octets::number16(frame, DA + 4) == u16::MAX
}

// Whether two addresses are the same.
pub fn are_same(one: [u8; 6], other: [u8; 6]) -> bool
    ensures { result ≡ same one other }
{
    one == other
}

// To whom the frame was sent.
pub fn receiver(frame: &[u8]) -> [u8; 6]
    ensures { result ≡ da frame.now }
{
    octets::address_at(frame, DA)
}

// Who has sent the frame.
pub fn sender(frame: &[u8]) -> [u8; 6]
    ensures { result ≡ sa frame.now }
{
    octets::address_at(frame, SA)
}

// SA is not the AP, or, in an IBSS, has its group bit set.
fn is_foreign_sender(frame: &[u8], cell: Cell, bssid: [u8; 6]) -> bool
    ensures { result ≡ foreign_sender cell bssid frame.now }
{
    match cell {
        Cell::Ap => !is_address(frame, SA, bssid),
        Cell::Ibss => octets::octet_at(frame, SA) % 2 == 1,
    }
}

// SA is none whose frames are taken, BSSID is not the cell's, or DA is neither the station nor all ones.
#[tactic(auto, unfolding(crate::specs::Headers::foreign_address))]
fn is_elsewhere(frame: &[u8], cell: Cell, own: [u8; 6], bssid: [u8; 6]) -> bool
    ensures { result ≡ foreign_address cell own bssid frame.now }
{
    is_foreign_sender(frame, cell, bssid)
        || !is_address(frame, BSSID, bssid)
        || !(is_address(frame, DA, own) || is_to_all(frame))
}

// Whether a frame that this station takes was sent to all ones, and not to the station alone.
// Kept as parameters: public calls take them one by one, as the C interface hands them.
#[tactic(auto, unfolding(crate::specs::Headers::address_means, answer::specs::Checks::checked))]
pub fn read_address(frame: &[u8], cell: Cell, own: [u8; 6], bssid: [u8; 6]) -> Result<bool, Refusal>
    ensures { result ≡ address_means cell own bssid frame.now }
{
    if is_elsewhere(frame, cell, own, bssid) {
        return Err(Refusal::ForeignAddress);
    }
    Ok(is_to_all(frame))
}
