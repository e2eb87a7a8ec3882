// The five action bodies (document 01, "Octets"). Those of one element are written from the front of the buffer on, a measurement body element by
// element after what the buffer holds.
ghost use Rattle.std.specs.Prelude.{true, not, eqb, take};
ghost use Rattle.single_body.specs.Singles.{tpc_request_body, tpc_report_body, switch_body};
ghost use Rattle.element.specs.ChannelSwitch.{switch_may};
ghost use Rattle.measurement_body.specs.Bodies.{may_append, appended};
ghost use Rattle.measurement_body.specs.Reports.{report_sort};
ghost use Rattle.measurement_body.specs.Requests.{request_sort};
ghost use Rattle.boundary.specs.Codes.{Put};
ghost use Rattle.boundary.specs.Given.{tpc_given, request_given, report_given};

use crate::{codes, given};
use element::channel_switch::ChannelSwitch;

#[unsafe(no_mangle)]
pub extern "C" fn oneiralth_write_tpc_request_body(token: u8, out: &mut [u8]) -> u64
    ensures { Put (not (eqb token 0)) (tpc_request_body token) 0 out.old result out.new }
{
    codes::wrote(single_body::write_tpc_request(token, out, 0))
}

#[unsafe(no_mangle)]
pub extern "C" fn oneiralth_write_tpc_report_body(
    token: u8,
    power: u8,
    margin: u8,
    out: &mut [u8],
) -> u64
    ensures { Put true (tpc_report_body token (tpc_given power margin)) 0 out.old result out.new }
{
    codes::wrote(single_body::write_tpc_report(token, given::tpc(power, margin), out, 0))
}

#[unsafe(no_mangle)]
pub extern "C" fn oneiralth_write_channel_switch_body(
    mode: u8,
    channel: u8,
    count: u8,
    out: &mut [u8],
) -> u64
    ensures { Put (switch_may (record { mode = mode; channel = channel; count = count })) (switch_body (record { mode = mode; channel = channel; count = count })) 0 out.old result out.new }
{
    let switch = ChannelSwitch {
        mode,
        channel,
        count,
    };
    codes::wrote(single_body::write_channel_switch(switch, out, 0))
}

// After the first `used` octets of the buffer, which are a body with this token; with none used a body begins.
#[unsafe(no_mangle)]
pub extern "C" fn oneiralth_append_request(
    buffer: &mut [u8],
    used: usize,
    dialog: u8,
    token: u8,
    kind: u8,
    asks: u8,
    request: bool,
    report: bool,
    channel: u8,
    start: u64,
    duration: u16,
) -> u64
    ensures { Put (may_append request_sort dialog (request_given token kind asks request report channel start duration) (take used buffer.old)) (appended request_sort dialog (request_given token kind asks request report channel start duration) (take used buffer.old)) used buffer.old result buffer.new }
{
    let record = given::request(token, kind, asks, request, report, channel, start, duration);
    codes::wrote(measurement_body::requests::append(buffer, used, dialog, record))
}

// The same of reports.
// Kept beside that of requests: each is a C function with parameters of its own.
#[unsafe(no_mangle)]
pub extern "C" fn oneiralth_append_report(
    buffer: &mut [u8],
    used: usize,
    dialog: u8,
    token: u8,
    kind: u8,
    says: u8,
    value: u8,
    channel: u8,
    start: u64,
    duration: u16,
    densities: u64,
) -> u64
    ensures { Put (may_append report_sort dialog (report_given token kind says value channel start duration densities) (take used buffer.old)) (appended report_sort dialog (report_given token kind says value channel start duration densities) (take used buffer.old)) used buffer.old result buffer.new }
{
    let record = given::report(
        token, kind, says, value, channel, start, duration, densities,
    );
    codes::wrote(measurement_body::reports::append(buffer, used, dialog, record))
}
