// The elements, written from the front of the buffer on (document 01, "Octets"; document 02, Five).
ghost use Rattle.std.specs.Prelude.{true};
ghost use Rattle.element.specs.ChannelSwitch.{switch_may, switch_octets};
ghost use Rattle.element.specs.IbssDfs.{dfs_of, dfs_may, dfs_octets};
ghost use Rattle.measurement_element.specs.MeasurementReport.{report_may, report_octets};
ghost use Rattle.measurement_element.specs.MeasurementRequest.{request_may, request_octets};
ghost use Rattle.element.specs.PowerConstraint.{power_octets};
ghost use Rattle.element.specs.Quiet.{quiet_may, quiet_octets};
ghost use Rattle.element.specs.TpcReport.{tpc_report_octets};
ghost use Rattle.element.specs.TpcRequest.{tpc_request_octets};
ghost use Rattle.boundary.specs.Codes.{address_of, Put};
ghost use Rattle.boundary.specs.Given.{tpc_given, request_given, report_given};

use crate::{codes, given};
use element::channel_switch::ChannelSwitch;
use element::power_constraint::PowerConstraint;
use element::quiet::Quiet;
use element::{channel_switch, ibss_dfs, power_constraint, quiet, tpc_report, tpc_request};
use measurement_element::{measurement_report, measurement_request};

#[unsafe(no_mangle)]
pub extern "C" fn oneiralth_write_power_constraint(decibels: u8, out: &mut [u8]) -> u64
    ensures { Put true (power_octets (record { decibels = decibels })) 0 out.old result out.new }
{
    codes::wrote(power_constraint::write(PowerConstraint { decibels }, out, 0))
}

#[unsafe(no_mangle)]
pub extern "C" fn oneiralth_write_tpc_request(out: &mut [u8]) -> u64
    ensures { Put true tpc_request_octets 0 out.old result out.new }
{
    codes::wrote(tpc_request::write(out, 0))
}

#[unsafe(no_mangle)]
pub extern "C" fn oneiralth_write_tpc_report(power: u8, margin: u8, out: &mut [u8]) -> u64
    ensures { Put true (tpc_report_octets (tpc_given power margin)) 0 out.old result out.new }
{
    codes::wrote(tpc_report::write(given::tpc(power, margin), out, 0))
}

#[unsafe(no_mangle)]
pub extern "C" fn oneiralth_write_channel_switch(
    mode: u8,
    channel: u8,
    count: u8,
    out: &mut [u8],
) -> u64
    ensures { Put (switch_may (record { mode = mode; channel = channel; count = count })) (switch_octets (record { mode = mode; channel = channel; count = count })) 0 out.old result out.new }
{
    let switch = ChannelSwitch {
        mode,
        channel,
        count,
    };
    codes::wrote(channel_switch::write(switch, out, 0))
}

#[unsafe(no_mangle)]
pub extern "C" fn oneiralth_write_quiet(
    count: u8,
    period: u8,
    duration: u16,
    offset: u16,
    interval: u16,
    out: &mut [u8],
) -> u64
    ensures { Put (quiet_may interval (record { count = count; period = period; duration = duration; offset = offset })) (quiet_octets (record { count = count; period = period; duration = duration; offset = offset })) 0 out.old result out.new }
{
    let quiet = Quiet {
        count,
        period,
        duration,
        offset,
    };
    codes::wrote(quiet::write(quiet, interval, out, 0))
}

// The pairs are their octets, channel and map in turn.
#[unsafe(no_mangle)]
pub extern "C" fn oneiralth_write_ibss_dfs(
    owner: u64,
    recovery: u8,
    pairs: &[u8],
    out: &mut [u8],
) -> u64
    ensures { Put (dfs_may (dfs_of (address_of owner) recovery pairs.now)) (dfs_octets (dfs_of (address_of owner) recovery pairs.now)) 0 out.old result out.new }
{
    let owner = codes::address(owner);
    codes::wrote(ibss_dfs::write(owner, recovery, pairs, out, 0))
}

#[unsafe(no_mangle)]
pub extern "C" fn oneiralth_write_request(
    token: u8,
    kind: u8,
    asks: u8,
    request: bool,
    report: bool,
    channel: u8,
    start: u64,
    duration: u16,
    out: &mut [u8],
) -> u64
    ensures { Put (request_may (request_given token kind asks request report channel start duration)) (request_octets (request_given token kind asks request report channel start duration)) 0 out.old result out.new }
{
    let record = given::request(token, kind, asks, request, report, channel, start, duration);
    codes::wrote(measurement_request::write(record, out, 0))
}

// Kept beside that of requests: each is a C function with parameters of its own.
#[unsafe(no_mangle)]
pub extern "C" fn oneiralth_write_report(
    token: u8,
    kind: u8,
    says: u8,
    value: u8,
    channel: u8,
    start: u64,
    duration: u16,
    densities: u64,
    out: &mut [u8],
) -> u64
    ensures { Put (report_may (report_given token kind says value channel start duration densities)) (report_octets (report_given token kind says value channel start duration densities)) 0 out.old result out.new }
{
    let record = given::report(
        token, kind, says, value, channel, start, duration, densities,
    );
    codes::wrote(measurement_report::write(record, out, 0))
}
