// Frames as a station of an IBSS reads them (document 02, Five), put as fields at fixed places (docs/BOUNDARY.md), from the front of the buffer on.
// Kept beside those of `reading`: each is a C function with a promise of its own.
ghost use Rattle.std.specs.Prelude.{◌≡◌, Ok};
ghost use Rattle.answer.specs.Checks.{and_then};
ghost use Rattle.element.specs.Quiet.{quiet_contents};
ghost use Rattle.frame.specs.IbssFrames.{ibss_frame_means, pair_of};
ghost use Rattle.frame.specs.IbssLaid.{ibss_laid};
ghost use Rattle.boundary.specs.Codes.{code_of, address_of, Given};
ghost use Rattle.boundary.specs.ElementFields.{pair_fields};
ghost use Rattle.boundary.specs.FaultOffsets.{fault_offset};
ghost use Rattle.boundary.specs.IbssFields.{ibss_fields, quiet_in_ibss};

use crate::{codes, element_fields, ibss_fields, received};

#[unsafe(no_mangle)]
pub extern "C" fn oneiralth_read_ibss_frame(
    frame: &[u8],
    own: u64,
    bssid: u64,
    interval: u16,
    out: &mut [u8],
) -> u64
    ensures { Given (ibss_fields (ibss_laid (ibss_frame_means (address_of own) (address_of bssid) interval frame.now))) out.old result out.new }
{
    let own = codes::address(own);
    let bssid = codes::address(bssid);
    let heard = frame::read_in_ibss(frame, own, bssid, interval);
    match heard.received {
        Err(fault) => codes::refused(fault.refusal),
        Ok(received) => codes::given(
            &ibss_fields::of_accepted(received, heard.sender, heard.dfs),
            out,
        ),
    }
}

// Where a frame that is refused broke, as `oneiralth_fault_offset`.
#[unsafe(no_mangle)]
pub extern "C" fn oneiralth_ibss_fault_offset(
    frame: &[u8],
    own: u64,
    bssid: u64,
    interval: u16,
) -> u64
    ensures { result ≡ code_of (fault_offset (ibss_frame_means (address_of own) (address_of bssid) interval frame.now)) }
{
    let own = codes::address(own);
    let bssid = codes::address(bssid);
    received::fault_offset(frame::read_in_ibss(frame, own, bssid, interval).received)
}

// A Quiet element by its index, as `oneiralth_read_quiet`.
#[unsafe(no_mangle)]
pub extern "C" fn oneiralth_read_ibss_quiet(
    frame: &[u8],
    own: u64,
    bssid: u64,
    interval: u16,
    index: usize,
    out: &mut [u8],
) -> u64
    ensures { Given (and_then (quiet_in_ibss index (ibss_frame_means (address_of own) (address_of bssid) interval frame.now)) (λ q. Ok (quiet_contents q))) out.old result out.new }
{
    let own = codes::address(own);
    let bssid = codes::address(bssid);
    match frame::read_in_ibss(frame, own, bssid, interval).received {
        Err(fault) => codes::refused(fault.refusal),
        Ok(received) => codes::wrote(received::put_quiet(received, index, out)),
    }
}

// A pair of element 41 by its index.
#[unsafe(no_mangle)]
pub extern "C" fn oneiralth_read_dfs_pair(
    frame: &[u8],
    own: u64,
    bssid: u64,
    interval: u16,
    index: usize,
    out: &mut [u8],
) -> u64
    ensures { Given (and_then (pair_of index (ibss_frame_means (address_of own) (address_of bssid) interval frame.now)) (λ p. Ok (pair_fields p))) out.old result out.new }
{
    let own = codes::address(own);
    let bssid = codes::address(bssid);
    match frame::dfs_pair_at(frame, own, bssid, interval, index) {
        Err(refusal) => codes::refused(refusal),
        Ok(pair) => codes::given(&element_fields::of_pair(pair), out),
    }
}
