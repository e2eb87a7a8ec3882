// Measurement Request bodies (802.11h 7.4.1.1).
ghost use Rattle.std.specs.Prelude.{take};
ghost use Rattle.octets.specs.Writing.{Written};
ghost use Rattle.measurement_body.specs.Bodies.{may_append, appended};
ghost use Rattle.measurement_body.specs.Requests.{request_sort};

use crate::bodies;
use crate::bodies::{Element, Opening};
use crate::kinds::Kind;
use answer::Refusal;
use measurement_element::measurement_request;
use measurement_element::measurement_request::Request;

// Writes a request after the first `used` octets of the buffer; with none used it starts a body with this token. Kept
// beside that of reports: both hand `bodies::append` an element, and one over a trait of both records would be longer than the two.
pub fn append(buffer: &mut [u8], used: usize, token: u8, request: Request) -> Result<usize, Refusal>
    ensures { Written (may_append request_sort token request (take used buffer.old)) (appended request_sort token request (take used buffer.old)) used buffer.old result buffer.new }
{
    let bytes = measurement_request::to_octets(request);
    let element = Element {
        token: request.token,
        may: measurement_request::may_write(request),
        octets: &bytes[..measurement_request::octet_count(request)],
    };
    let opening = Opening {
        kind: Kind::Requests,
        token,
    };
    bodies::append(buffer, used, opening, element)
}
