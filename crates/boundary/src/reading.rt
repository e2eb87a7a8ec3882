// Frames and measurement elements, put as fields at fixed places (docs/BOUNDARY.md), from the front of the buffer on.
ghost use Rattle.std.specs.Prelude.{◌≡◌, Ok};
ghost use Rattle.answer.specs.Checks.{and_then};
ghost use Rattle.element.specs.Quiet.{quiet_contents};
ghost use Rattle.frame.specs.Frames.{frame_means, element_of, request_in, report_in};
ghost use Rattle.frame.specs.Laid.{frame_laid};
ghost use Rattle.boundary.specs.Codes.{code_of, address_of, Given};
ghost use Rattle.boundary.specs.ElementFields.{quiet_of, request_fields, report_fields};
ghost use Rattle.boundary.specs.FaultOffsets.{fault_offset};
ghost use Rattle.boundary.specs.FrameFields.{frame_fields};

use crate::{codes, element_fields, frame_fields, received};

#[unsafe(no_mangle)]
pub extern "C" fn oneiralth_read_frame(
    frame: &[u8],
    own: u64,
    ap: u64,
    interval: u16,
    out: &mut [u8],
) -> u64
    ensures { Given (frame_fields (frame_laid (frame_means (address_of own) (address_of ap) interval frame.now))) out.old result out.new }
{
    match frame::read(frame, codes::address(own), codes::address(ap), interval) {
        Err(fault) => codes::refused(fault.refusal),
        Ok(received) => codes::given(&frame_fields::of_received(received), out),
    }
}

// Where a frame that is refused broke: the offset of the octet at fault. A refusal that has none is answered again, and an accepted frame is 16.
#[unsafe(no_mangle)]
pub extern "C" fn oneiralth_fault_offset(frame: &[u8], own: u64, ap: u64, interval: u16) -> u64
    ensures { result ≡ code_of (fault_offset (frame_means (address_of own) (address_of ap) interval frame.now)) }
{
    received::fault_offset(frame::read(frame, codes::address(own), codes::address(ap), interval))
}

// A Quiet element by its index, as the measurement elements are.
#[unsafe(no_mangle)]
pub extern "C" fn oneiralth_read_quiet(
    frame: &[u8],
    own: u64,
    ap: u64,
    interval: u16,
    index: usize,
    out: &mut [u8],
) -> u64
    ensures { Given (and_then (quiet_of index (frame_means (address_of own) (address_of ap) interval frame.now)) (λ q. Ok (quiet_contents q))) out.old result out.new }
{
    match frame::read(frame, codes::address(own), codes::address(ap), interval) {
        Err(fault) => codes::refused(fault.refusal),
        Ok(received) => codes::wrote(received::put_quiet(received, index, out)),
    }
}

#[unsafe(no_mangle)]
pub extern "C" fn oneiralth_read_request(
    frame: &[u8],
    own: u64,
    ap: u64,
    interval: u16,
    index: usize,
    out: &mut [u8],
) -> u64
    ensures { Given (and_then (element_of request_in index (frame_means (address_of own) (address_of ap) interval frame.now)) (λ q. Ok (request_fields q))) out.old result out.new }
{
    let own = codes::address(own);
    let ap = codes::address(ap);
    match frame::request_at(frame, own, ap, interval, index) {
        Err(refusal) => codes::refused(refusal),
        Ok(request) => codes::given(&element_fields::of_request(request), out),
    }
}

#[unsafe(no_mangle)]
pub extern "C" fn oneiralth_read_report(
    frame: &[u8],
    own: u64,
    ap: u64,
    interval: u16,
    index: usize,
    out: &mut [u8],
) -> u64
    ensures { Given (and_then (element_of report_in index (frame_means (address_of own) (address_of ap) interval frame.now)) (λ q. Ok (report_fields q))) out.old result out.new }
{
    let own = codes::address(own);
    let ap = codes::address(ap);
    match frame::report_at(frame, own, ap, interval, index) {
        Err(refusal) => codes::refused(refusal),
        Ok(report) => codes::given(&element_fields::of_report(report), out),
    }
}
