// The report that is owed for an element of a Measurement Request (document 01, "Replies").
#![tactic(auto)]

ghost use Rattle.std.specs.Prelude.{◌≡◌};
ghost use Rattle.measured_report.specs.Reports.{plain, map_report, busy_report, rpi_report, found_report, measured_report, report_for};

use answer::Refusal;
use measurement_element::measurement_report::{Matter, Reason, Report};
use measurement_element::measurement_request::{Matter as Asked, Request};
use measurement_element::{Found, Span};

// What the caller has found, or that it refuses to measure: a map, a busy time in µs, or eight times in µs, which stand beside it.
#[derive(Clone, Copy)]
pub enum Finding {
    Refused,
    Map(u8),
    Busy(u32),
    Times,
}

// Kept beside one another: the promises of the exported replies name both fields.
#[derive(Clone, Copy)]
pub struct Readings {
    pub finding: Finding,
    pub times: [u32; 8],
}

// A report with no densities beside it.
fn plain(request: Request, matter: Matter) -> Report
    ensures { result ≡ plain request.token request.kind matter }
{
    Report {
        token: request.token,
        kind: request.kind,
        matter,
        densities: [0; 8],
    }
}

// Kept as three: they differ in the type, in what is worked out, and in which of it may fail.
// A map answers type 0. The type is kept as a number, here and below, as `Request` has it.
fn map_report(request: Request, span: Span, map: u8) -> Result<Report, Refusal>
    ensures { result ≡ map_report request.token request.kind span map }
{
    if request.kind != 0 {
        return Err(Refusal::Impossible);
    }
    let found = Found::Map(map);
    Ok(plain(request, Matter::Measured { span, found }))
}

// A busy time answers type 1.
fn busy_report(request: Request, span: Span, time: u32) -> Result<Report, Refusal>
    ensures { result ≡ busy_report request.token request.kind span time }
{
    if request.kind != 1 {
        return Err(Refusal::Impossible);
    }
    let found = Found::Busy(fraction::busy_fraction(time, span.duration)?);
    Ok(plain(request, Matter::Measured { span, found }))
}

// Eight times answer type 2.
fn rpi_report(request: Request, span: Span, times: [u32; 8]) -> Result<Report, Refusal>
    ensures { result ≡ rpi_report request.token request.kind span times }
{
    if request.kind != 2 {
        return Err(Refusal::Impossible);
    }
    let densities = fraction::rpi_densities(times, span.duration)?;
    let found = Found::Densities;
    Ok(Report {
        densities,
        ..plain(request, Matter::Measured { span, found })
    })
}

// The caller's own refusal or readings, as the type asks.
fn found_report(request: Request, span: Span, readings: Readings) -> Result<Report, Refusal>
    ensures { result ≡ found_report request.token request.kind span readings }
{
    match readings.finding {
        Finding::Refused => Ok(plain(request, Matter::NotMeasured(Reason::Refused))),
        Finding::Map(map) => map_report(request, span, map),
        Finding::Busy(time) => busy_report(request, span, time),
        Finding::Times => rpi_report(request, span, readings.times),
    }
}

// A start that is not 0 and lies before the clock is late; one of 0 is now. The timing is in µs, 1,024 of them a TU.
fn measured_report(
    request: Request,
    span: Span,
    clock: u32,
    readings: Readings,
) -> Result<Report, Refusal>
    ensures { result ≡ measured_report request.token request.kind span clock readings }
{
    let now = u64::from(clock) * 1024;
    if span.start != 0 && span.start < now {
        return Ok(plain(request, Matter::NotMeasured(Reason::Late)));
    }
    let start = if span.start == 0 { now } else { span.start };
    found_report(request, Span { start, ..span }, readings)
}

// An Enable element gets no reply, and a type over 2 cannot be measured.
pub fn report_for(request: Request, clock: u32, readings: Readings) -> Result<Report, Refusal>
    ensures { result ≡ report_for clock readings request }
{
    match request.matter {
        Asked::Enable { .. } => Err(Refusal::NoReplyDue),
        Asked::Measure(span) => measured_report(request, span, clock, readings),
        Asked::Uninterpreted => Ok(plain(request, Matter::NotMeasured(Reason::Incapable))),
    }
}
