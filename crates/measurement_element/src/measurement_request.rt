// Element 38, Measurement Request (7.3.2.21).
ghost use Rattle.std.specs.Prelude.{◌≡◌, ◌≤◌, length, take};
ghost use Rattle.octets.specs.Writing.{Written};
ghost use Rattle.measurement_element.specs.CodeTerms.Built.{request_span, request_built};
ghost use Rattle.measurement_element.specs.MeasurementRequest.{request_matter_in, request_in, request_misfits, request_forbids, request_means, request_mode, request_size, request_agrees, request_may, request_octets, request_interpreted, request_clear};

use crate::found::HIGHEST_KIND;
use crate::span::Span;
use answer::Refusal;

pub const ID: u8 = 38;

// What is asked: whether requests and autonomous reports of the type are welcome, or a measurement.
#[derive(Clone, Copy)]
pub enum Matter {
    Enable { request: bool, report: bool },
    Measure(Span),
    Uninterpreted,
}

// The type is kept as a number: one over 2 is read as well, and written back as it is.
#[derive(Clone, Copy)]
pub struct Request {
    pub token: u8,
    pub kind: u8,
    pub matter: Matter,
}

// Mode bit 1 is Enable, and bits 2 and 3 are Request and Report beside it, which are invalid with a reserved type.
fn matter_in(contents: &[u8], mode: u8, kind: u8) -> Matter
    ensures { result ≡ request_matter_in mode kind contents.now }
{
    let is_known = kind <= HIGHEST_KIND;
    if mode / 2 % 2 == 1 {
        return Matter::Enable {
            request: is_known && mode / 4 % 2 == 1,
            report: is_known && mode / 8 % 2 == 1,
        };
    }
    if is_known {
        return Matter::Measure(Span::read(contents));
    }
    Matter::Uninterpreted
}

fn request_in(contents: &[u8]) -> Request
    ensures { result ≡ request_in contents.now }
{
    let token = octets::octet_at(contents, 0);
    let mode = octets::octet_at(contents, 1);
    let kind = octets::octet_at(contents, 2);
    let matter = matter_in(contents, mode, kind);
    Request {
        token,
        kind,
        matter,
    }
}

// Whether contents of three octets or more have another length than what they ask has.
fn is_misfit(matter: Matter, length: usize) -> bool
    ensures { result ≡ request_misfits matter length }
{
    match matter {
        Matter::Enable { .. } => length != 3,
        Matter::Measure(_) => length != 14,
        Matter::Uninterpreted => false,
    }
}

// The token is 0, which is for reports alone, or the channel is over 200.
fn is_forbidden(request: Request) -> bool
    ensures { result ≡ request_forbids request }
{
    let forbids_matter = match request.matter {
        Matter::Measure(span) => span.is_forbidden(),
        _ => false,
    };
    request.token == 0 || forbids_matter
}

#[tactic(auto, unfolding(crate::specs::MeasurementRequest::request_means, answer::specs::Checks::checked))]
pub fn read(contents: &[u8]) -> Result<Request, Refusal>
    ensures { result ≡ request_means contents.now }
{
    if contents.len() < 3 {
        return Err(Refusal::WrongLength);
    }
    let request = request_in(contents);
    if is_misfit(request.matter, contents.len()) {
        return Err(Refusal::WrongLength);
    }
    if is_forbidden(request) {
        return Err(Refusal::ForbiddenValue);
    }
    Ok(request)
}

// Whether no reserved bit is set: with Enable all bits of the mode but 1 to 3 are reserved, and 2 and 3 too with a reserved type; without it all but bit 1.
pub fn is_clear(contents: &[u8]) -> bool
    ensures { result ≡ request_clear contents.now }
{
    let mode = octets::octet_at(contents, 1);
    let kind = octets::octet_at(contents, 2);
    if mode / 2 % 2 == 0 {
        return mode == 0;
    }
    if HIGHEST_KIND < kind {
        return mode == 2;
    }
    mode % 2 == 0 && mode < 16
}

// Whether nothing in the request is uninterpreted.
pub fn is_interpreted(request: Request) -> bool
    ensures { result ≡ request_interpreted request }
{
    !matches!(request.matter, Matter::Uninterpreted)
}

// The mode, with every reserved bit 0.
fn mode_of(matter: Matter) -> u8
    ensures { result ≡ request_mode matter }
{
    match matter {
        Matter::Enable { request, report } => 2 + 4 * u8::from(request) + 8 * u8::from(report),
        _ => 0,
    }
}

// The span that is written, where one is.
fn span_of(matter: Matter) -> Span
    ensures { result ≡ request_span matter }
{
    match matter {
        Matter::Measure(span) => span,
        _ => Span::none(),
    }
}

// How many octets the contents have.
fn size_of(matter: Matter) -> u8
    ensures { result ≡ request_size matter }
{
    match matter {
        Matter::Measure(_) => 14,
        _ => 3,
    }
}

// Whether this type can ask for this; uninterpreted contents are never written.
fn agrees(matter: Matter, kind: u8) -> bool
    ensures { result ≡ request_agrees matter kind }
{
    match matter {
        Matter::Enable { request, report } => kind <= HIGHEST_KIND || !(request || report),
        Matter::Measure(_) => kind <= HIGHEST_KIND,
        Matter::Uninterpreted => false,
    }
}

// Whether the reader would take the request back, and nothing in it is uninterpreted.
#[tactic(auto, unfolding(crate::specs::MeasurementRequest::request_may))]
pub fn may_write(request: Request) -> bool
    ensures { result ≡ request_may request }
{
    !is_forbidden(request) && agrees(request.matter, request.kind)
}

// The element's octets, and after those of an Enable element some that are not written.
// Kept as one literal, in the order of `request_built`: by slices each part would need its place.
// The count is kept beside it: there is no heap.
pub fn to_octets(request: Request) -> [u8; 16]
    ensures { (length result ≡ 16) × (take (length (request_octets request)) result ≡ request_octets request) × (result ≡ request_built request) }
{
    let s = span_of(request.matter).to_octets();
    [
        ID,
        size_of(request.matter),
        request.token,
        mode_of(request.matter),
        request.kind,
        s[0],
        s[1],
        s[2],
        s[3],
        s[4],
        s[5],
        s[6],
        s[7],
        s[8],
        s[9],
        s[10],
    ]
}

// How many octets the element has, with its ID and its length.
// Kept beside that of reports: one over a trait of both records would be longer than the two.
pub fn octet_count(request: Request) -> usize
    ensures { (result ≡ length (request_octets request)) × (result ≤ 16) }
{
    // A cast as yet: with usize::from the answers do not fit as they stand.
    2 + (size_of(request.matter) as usize)
}

#[tactic(auto, using(octets::proofs::Overwriting::written_as))]
pub fn write(request: Request, buffer: &mut [u8], at: usize) -> Result<usize, Refusal>
    ensures { Written (request_may request) (request_octets request) at buffer.old result buffer.new }
{
    let bytes = to_octets(request);
    let count = octet_count(request);
    octets::put(may_write(request), &bytes[..count], buffer, at)
}
