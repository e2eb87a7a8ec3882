// An element of a frame as its fields, each at its place (docs/BOUNDARY.md). What it has not got is 0.
// Kept as numbers: C reads them so, as it hands them to the writers.
ghost use Rattle.std.specs.Prelude.{◌≡◌};
ghost use Rattle.element.specs.Quiet.{quiet_contents};
ghost use Rattle.boundary.specs.ElementFields.{pair_fields, asked_by, request_fields, reason_number, found_number, found_value, said_by, report_fields};

use crate::frame_fields;
use element::ibss_dfs::ChannelMap;
use element::quiet::Quiet;
use measurement_element::measurement_report::{Reason, Report};
use measurement_element::measurement_request::Request;
use measurement_element::{Found, Span, measurement_report, measurement_request};

// Where the span of a request stands, and that of a report with its densities, and how many octets the fields of each are.
const REQUEST_SPAN: usize = 5;

pub const REQUEST: usize = 16;

const REPORT_SPAN: usize = 4;

const DENSITIES: usize = 15;

pub const REPORT: usize = 23;

// A Quiet element as in its contents: count, period, duration, offset.
// Kept as one literal, in the order of the octets: by slices each number would need its place.
pub fn of_quiet(quiet: Quiet) -> [u8; 6]
    ensures { result ≡ quiet_contents quiet }
{
    let duration = octets::octets16(quiet.duration);
    let offset = octets::octets16(quiet.offset);
    [
        quiet.count,
        quiet.period,
        duration[0],
        duration[1],
        offset[0],
        offset[1],
    ]
}

// A pair of element 41.
pub fn of_pair(pair: ChannelMap) -> [u8; 2]
    ensures { result ≡ pair_fields pair }
{
    [pair.channel, pair.map]
}

// What is asked, by the numbers that a writer takes.
#[derive(Clone, Copy)]
pub struct Asked {
    pub asks: u8,
    pub request: u8,
    pub report: u8,
    pub span: Span,
}

fn asked_by(matter: measurement_request::Matter) -> Asked
    ensures { result ≡ asked_by matter }
{
    match matter {
        measurement_request::Matter::Enable { request, report } => Asked {
            asks: 0,
            request: frame_fields::flag(request),
            report: frame_fields::flag(report),
            span: Span::none(),
        },
        measurement_request::Matter::Measure(span) => Asked {
            asks: 1,
            request: 0,
            report: 0,
            span,
        },
        measurement_request::Matter::Uninterpreted => Asked {
            asks: 2,
            request: 0,
            report: 0,
            span: Span::none(),
        },
    }
}

pub fn of_request(request: Request) -> [u8; REQUEST]
    ensures { result ≡ request_fields request }
{
    let asked = asked_by(request.matter);
    let front = [
        request.token,
        request.kind,
        asked.asks,
        asked.request,
        asked.report,
    ];
    let mut fields = [0; REQUEST];
    fields[..REQUEST_SPAN].copy_from_slice(&front);
    fields[REQUEST_SPAN..].copy_from_slice(&asked.span.to_octets());
    fields
}

// What is said, by the numbers that a writer takes; the value is the map or the busy fraction.
#[derive(Clone, Copy)]
pub struct Said {
    pub says: u8,
    pub value: u8,
    pub span: Span,
}

fn reason_number(reason: Reason) -> u8
    ensures { result ≡ reason_number reason }
{
    match reason {
        Reason::Late => 0,
        Reason::Incapable => 1,
        Reason::Refused => 2,
    }
}

fn found_number(found: Found) -> u8
    ensures { result ≡ found_number found }
{
    match found {
        Found::Map(_) => 3,
        Found::Busy(_) => 4,
        Found::Densities => 5,
    }
}

fn found_value(found: Found) -> u8
    ensures { result ≡ found_value found }
{
    match found {
        Found::Map(map) => map,
        Found::Busy(fraction) => fraction,
        Found::Densities => 0,
    }
}

fn said_by(matter: measurement_report::Matter) -> Said
    ensures { result ≡ said_by matter }
{
    match matter {
        measurement_report::Matter::NotMeasured(reason) => Said {
            says: reason_number(reason),
            value: 0,
            span: Span::none(),
        },
        measurement_report::Matter::Measured { span, found } => Said {
            says: found_number(found),
            value: found_value(found),
            span,
        },
        measurement_report::Matter::Uninterpreted => Said {
            says: 6,
            value: 0,
            span: Span::none(),
        },
    }
}

pub fn of_report(report: Report) -> [u8; REPORT]
    ensures { result ≡ report_fields report }
{
    let said = said_by(report.matter);
    let mut fields = [0; REPORT];
    fields[..REPORT_SPAN].copy_from_slice(&[report.token, report.kind, said.says, said.value]);
    fields[REPORT_SPAN..DENSITIES].copy_from_slice(&said.span.to_octets());
    fields[DENSITIES..].copy_from_slice(&report.densities);
    fields
}
