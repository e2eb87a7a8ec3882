// A frame of an IBSS as its fields: those of document 01's reader, then the sender and element 41 (docs/BOUNDARY.md).
ghost use Rattle.std.specs.Prelude.{◌≡◌, ◌++◌};
ghost use Rattle.boundary.specs.FrameFields.{received_octets};
ghost use Rattle.boundary.specs.IbssFields.{held_dfs};

use crate::frame_fields;
use element::ibss_dfs::IbssDfs;
use frame::Received;

// Where the sender and element 41 stand, after document 01's fields, and how many octets they all are.
const SENDER: usize = frame_fields::LENGTH;

const DFS: usize = 44;

pub const LENGTH: usize = 60;

// Where the parts of element 41 stand in it, after the octet that says whether it is there.
const OWNER: usize = 1;

const RECOVERY: usize = 7;

const PAIRS: usize = 8;

// 1 where there is an element 41, its owner, its recovery interval and how many pairs it has; zeros where there is none.
fn held_dfs(dfs: Option<IbssDfs>) -> [u8; 16]
    ensures { result ≡ held_dfs dfs }
{
    let mut fields = [0; 16];
    if let Some(dfs) = dfs {
        fields[0] = 1;
        fields[OWNER..RECOVERY].copy_from_slice(&dfs.owner);
        fields[RECOVERY] = dfs.recovery;
        fields[PAIRS..].copy_from_slice(&octets::octets64(dfs.pairs as u64));
    }
    fields
}

// The fields of a frame that was accepted.
pub fn of_accepted(received: Received, sender: [u8; 6], dfs: Option<IbssDfs>) -> [u8; LENGTH]
    ensures { result ≡ received_octets received ++ sender ++ held_dfs dfs }
{
    let mut fields = [0; LENGTH];
    fields[..SENDER].copy_from_slice(&frame_fields::of_received(received));
    fields[SENDER..DFS].copy_from_slice(&sender);
    fields[DFS..].copy_from_slice(&held_dfs(dfs));
    fields
}
