// The header of a management frame (document 01, "Octets"; the base standard, with 802.11h 7.2.3).
#![tactic(auto)]

mod address;
mod management;
mod parts;

ghost use Rattle.std.specs.Prelude.{◌≡◌};
ghost use Rattle.header.specs.Headers.{header_means};

pub use address::{Cell, are_same, read_address, receiver, sender};
use answer::Refusal;
pub use management::{LENGTH, LONGEST_FRAME, Subtype, read_management};
pub use parts::body;

// What the header of a frame that is taken says: which frame it is, and whether it was sent to all ones.
#[derive(Clone, Copy)]
pub struct Head {
    pub subtype: Subtype,
    pub to_all: bool,
}

// The header of a frame that a station hears in its cell: from its AP, or from a member of its IBSS.
#[tactic(auto, unfolding(crate::specs::Headers::header_means))]
pub fn read(frame: &[u8], cell: Cell, own: [u8; 6], bssid: [u8; 6]) -> Result<Head, Refusal>
    ensures { result ≡ header_means cell own bssid frame.now }
{
    let subtype = read_management(frame)?;
    let to_all = read_address(frame, cell, own, bssid)?;
    Ok(Head { subtype, to_all })
}
