// Measurement Report bodies (802.11h 7.4.1.2).
ghost use Rattle.std.specs.Prelude.{take};
ghost use Rattle.octets.specs.Writing.{Written};
ghost use Rattle.measurement_body.specs.Bodies.{may_append, appended};
ghost use Rattle.measurement_body.specs.Reports.{report_sort};

use crate::bodies;
use crate::bodies::{Element, Opening};
use crate::kinds::Kind;
use answer::Refusal;
use measurement_element::measurement_report;
use measurement_element::measurement_report::Report;

// Writes a report after the first `used` octets of the buffer; with none used it starts a body with this token.
pub fn append(buffer: &mut [u8], used: usize, token: u8, report: Report) -> Result<usize, Refusal>
    ensures { Written (may_append report_sort token report (take used buffer.old)) (appended report_sort token report (take used buffer.old)) used buffer.old result buffer.new }
{
    let bytes = measurement_report::to_octets(report);
    let element = Element {
        token: report.token,
        may: measurement_report::may_write(report),
        octets: &bytes[..measurement_report::octet_count(report)],
    };
    let opening = Opening {
        kind: Kind::Reports,
        token,
    };
    bodies::append(buffer, used, opening, element)
}
