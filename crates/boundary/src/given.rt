// The records of a TPC Report and of the measurement elements, as a caller gives them by numbers.
// Kept as numbers: C hands them so (docs/BOUNDARY.md).
ghost use Rattle.std.specs.Prelude.{◌≡◌};
ghost use Rattle.boundary.specs.Given.{tpc_given, asks_given, says_given, request_given, report_given};

use element::tpc_report::TpcReport;
use measurement_element::measurement_report::{Matter, Reason, Report};
use measurement_element::measurement_request::Request;
use measurement_element::{Found, Span, measurement_request};

// Power and margin as the element has them, each an octet.
pub fn tpc(power: u8, margin: u8) -> TpcReport
    ensures { result ≡ tpc_given power margin }
{
    TpcReport {
        power: octets::to_signed(power),
        margin: octets::to_signed(margin),
    }
}

// 0 an Enable element, 1 a measurement; every other number stands for what is not interpreted, which no writer takes.
#[tactic(auto, unfolding(crate::specs::Given::asks_given))]
fn asks(number: u8, request: bool, report: bool, span: Span) -> measurement_request::Matter
    ensures { result ≡ asks_given number request report span }
{
    match number {
        0 => measurement_request::Matter::Enable { request, report },
        1 => measurement_request::Matter::Measure(span),
        _ => measurement_request::Matter::Uninterpreted,
    }
}

// Kept as parameters, here and of a report: the C interface hands each field by itself.
pub fn request(
    token: u8,
    kind: u8,
    number: u8,
    request: bool,
    report: bool,
    channel: u8,
    start: u64,
    duration: u16,
) -> Request
    ensures { result ≡ request_given token kind number request report channel start duration }
{
    let span = Span {
        channel,
        start,
        duration,
    };
    Request {
        token,
        kind,
        matter: asks(number, request, report, span),
    }
}

// 0 Late, 1 Incapable, 2 Refused, 3 a basic report, 4 a CCA report, 5 an RPI histogram; every other number stands for what is not interpreted,
// which no writer takes. The value is the map or the busy fraction.
#[tactic(auto, unfolding(crate::specs::Given::says_given))]
fn says(number: u8, value: u8, span: Span) -> Matter
    ensures { result ≡ says_given number value span }
{
    match number {
        0 => Matter::NotMeasured(Reason::Late),
        1 => Matter::NotMeasured(Reason::Incapable),
        2 => Matter::NotMeasured(Reason::Refused),
        3 => Matter::Measured {
            span,
            found: Found::Map(value),
        },
        4 => Matter::Measured {
            span,
            found: Found::Busy(value),
        },
        5 => Matter::Measured {
            span,
            found: Found::Densities,
        },
        _ => Matter::Uninterpreted,
    }
}

// The densities are eight octets, the first of them the least significant.
pub fn report(
    token: u8,
    kind: u8,
    number: u8,
    value: u8,
    channel: u8,
    start: u64,
    duration: u16,
    densities: u64,
) -> Report
    ensures { result ≡ report_given token kind number value channel start duration densities }
{
    let span = Span {
        channel,
        start,
        duration,
    };
    Report {
        token,
        kind,
        matter: says(number, value, span),
        densities: octets::octets64(densities),
    }
}
