// What the two readers of frames, document 01's and that of an IBSS, hand out alike, as their callers get it.
ghost use Rattle.std.specs.Prelude.{◌≡◌, ◌≤◌, Ok};
ghost use Rattle.answer.specs.Checks.{and_then};
ghost use Rattle.beacon.specs.Beacons.{quiet_limit};
ghost use Rattle.element.specs.Quiet.{quiet_contents};
ghost use Rattle.reply.specs.Replies.{Replied};
ghost use Rattle.boundary.specs.CodeTerms.HeldQuiets.{held_quiet};
ghost use Rattle.boundary.specs.Codes.{code_of};
ghost use Rattle.boundary.specs.FaultOffsets.{fault_offset};

use crate::{codes, element_fields};
use answer::{Fault, Refusal};
use frame::Received;

// The offset of the octet at fault. A refusal that has none is answered again, and an accepted frame is 16.
pub fn fault_offset(received: Result<Received, Fault>) -> u64
    ensures { result ≡ code_of (fault_offset received) }
{
    match received {
        Ok(_) => codes::refused(Refusal::Impossible),
        Err(fault) => match fault.offset {
            None => codes::refused(fault.refusal),
            Some(before) => before as u64,
        },
    }
}

// The fields of the Quiet element at an index, or 16 where the frame has no such element.
pub fn put_quiet(received: Received, index: usize, out: &mut [u8]) -> Result<usize, Refusal>
    requires { received.count ≤ quiet_limit }
    ensures { Replied (and_then (held_quiet index received) (λ q. Ok (quiet_contents q))) out.old result out.new }
{
    if received.count <= index {
        return Err(Refusal::Impossible);
    }
    octets::put(
        true,
        &element_fields::of_quiet(received.quiets[index]),
        out,
        0,
    )
}
