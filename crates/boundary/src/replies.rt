// The two replies (document 01, "Replies"), each a whole frame from the front of the buffer on.
ghost use Rattle.std.specs.Prelude.{◌≡◌, ◌∷◌, []};
ghost use Rattle.reply.specs.Replies.{tpc_reply, measurement_reply};
ghost use Rattle.boundary.specs.Codes.{address_of, Given};
ghost use Rattle.boundary.specs.Findings.{finding_given};
ghost use Rattle.boundary.specs.Given.{tpc_given};

use crate::{codes, given};
use measured_report::{Finding, Readings};

#[unsafe(no_mangle)]
pub extern "C" fn oneiralth_reply_to_tpc_request(
    frame: &[u8],
    own: u64,
    ap: u64,
    power: u8,
    margin: u8,
    out: &mut [u8],
) -> u64
    ensures { Given (tpc_reply (address_of own) (address_of ap) (tpc_given power margin) frame.now) out.old result out.new }
{
    let report = given::tpc(power, margin);
    let own = codes::address(own);
    let ap = codes::address(ap);
    codes::wrote(reply::to_tpc_request(frame, own, ap, report, out))
}

// 0 the caller refuses, 1 a map, 2 a busy time; every other number stands for the eight times.
// Kept as a number: C hands it so (docs/BOUNDARY.md).
#[tactic(auto, unfolding(crate::specs::Findings::finding_given))]
pub fn finding(number: u8, value: u32) -> Finding
    ensures { result ≡ finding_given number value }
{
    match number {
        0 => Finding::Refused,
        1 => Finding::Map((value % 256) as u8),
        2 => Finding::Busy(value),
        _ => Finding::Times,
    }
}

// The eight times are kept as parameters, here and elsewhere: the C interface hands numbers.
#[unsafe(no_mangle)]
pub extern "C" fn oneiralth_reply_to_measurement_request(
    frame: &[u8],
    own: u64,
    ap: u64,
    clock: u32,
    index: usize,
    found: u8,
    value: u32,
    t0: u32,
    t1: u32,
    t2: u32,
    t3: u32,
    t4: u32,
    t5: u32,
    t6: u32,
    t7: u32,
    out: &mut [u8],
) -> u64
    ensures { Given (measurement_reply (address_of own) (address_of ap) clock index (record { finding = finding_given found value; times = t0 ∷ t1 ∷ t2 ∷ t3 ∷ t4 ∷ t5 ∷ t6 ∷ t7 ∷ [] }) frame.now) out.old result out.new }
{
    let readings = Readings {
        finding: finding(found, value),
        times: [t0, t1, t2, t3, t4, t5, t6, t7],
    };
    let own = codes::address(own);
    let ap = codes::address(ap);
    codes::wrote(reply::to_measurement_request(frame, own, ap, clock, index, readings, out))
}
