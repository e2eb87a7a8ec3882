// Element 39, Measurement Report (7.3.2.22).
ghost use Rattle.std.specs.Prelude.{◌≡◌, ◌≤◌, length, take, Err};
ghost use Rattle.octets.specs.Writing.{Written};
ghost use Rattle.measurement_element.specs.CodeTerms.Built.{report_span, report_last, report_built};
ghost use Rattle.measurement_element.specs.MeasurementReport.{report_flags, report_measured, report_matter_in, is_histogram, densities_in, report_in, matter_interpreted, report_size, report_misfits, report_forbids, report_means, report_mode, report_agrees, silent, report_may, report_octets, report_interpreted, map_clear, report_clear};

use crate::found::{Found, HIGHEST_KIND};
use crate::span::Span;
use answer::Refusal;

pub const ID: u8 = 39;

// Why there is no measurement.
#[derive(Clone, Copy)]
pub enum Reason {
    Late,
    Incapable,
    Refused,
}

// What is reported: why nothing was measured, or what was found where and when; contents of a type over 2 are not interpreted.
#[derive(Clone, Copy)]
pub enum Matter {
    NotMeasured(Reason),
    Measured { span: Span, found: Found },
    Uninterpreted,
}

// The eight densities stand beside what is reported (`Found` says why), and are 0 where it is no
// RPI histogram.
// The type is kept as a number: a report may say of one over 2 why nothing was measured.
#[derive(Clone, Copy)]
pub struct Report {
    pub token: u8,
    pub kind: u8,
    pub matter: Matter,
    pub densities: [u8; 8],
}

const NO_DENSITIES: [u8; 8] = [0; 8];

// How many of Late, Incapable and Refused are set.
fn flags_in(mode: u8) -> u8
    ensures { result ≡ report_flags mode }
{
    mode % 2 + (mode / 2 % 2 + mode / 4 % 2)
}

// A measurement, by its type.
fn measured_in(contents: &[u8], kind: u8) -> Matter
    ensures { result ≡ report_measured kind contents.now }
{
    if HIGHEST_KIND < kind {
        return Matter::Uninterpreted;
    }
    Matter::Measured {
        span: Span::read(contents),
        found: Found::by(kind, octets::octet_at(contents, 14)),
    }
}

// Mode bits 0 to 2 are Late, Incapable and Refused.
fn matter_in(contents: &[u8], mode: u8, kind: u8) -> Matter
    ensures { result ≡ report_matter_in mode kind contents.now }
{
    if mode % 2 == 1 {
        return Matter::NotMeasured(Reason::Late);
    }
    if mode / 2 % 2 == 1 {
        return Matter::NotMeasured(Reason::Incapable);
    }
    if mode / 4 % 2 == 1 {
        return Matter::NotMeasured(Reason::Refused);
    }
    measured_in(contents, kind)
}

// Whether eight densities stand beside what is reported.
fn is_histogram(matter: Matter) -> bool
    ensures { result ≡ is_histogram matter }
{
    matches!(
        matter,
        Matter::Measured {
            found: Found::Densities,
            ..
        }
    )
}

// The eight densities after the span.
fn densities_in(contents: &[u8], matter: Matter) -> [u8; 8]
    ensures { result ≡ densities_in matter contents.now }
{
    if !is_histogram(matter) {
        return NO_DENSITIES;
    }
    std::array::from_fn(|i| octets::octet_at(contents, 14 + i))
}

fn report_in(contents: &[u8]) -> Report
    ensures { result ≡ report_in contents.now }
{
    let token = octets::octet_at(contents, 0);
    let mode = octets::octet_at(contents, 1);
    let kind = octets::octet_at(contents, 2);
    let matter = matter_in(contents, mode, kind);
    let densities = densities_in(contents, matter);
    Report {
        token,
        kind,
        matter,
        densities,
    }
}

// Whether nothing reported is uninterpreted.
fn is_matter_interpreted(matter: Matter) -> bool
    ensures { result ≡ matter_interpreted matter }
{
    !matches!(matter, Matter::Uninterpreted)
}

// How many octets the contents have.
fn size_of(matter: Matter) -> u8
    ensures { result ≡ report_size matter }
{
    match matter {
        Matter::Measured { found, .. } => found.size(),
        _ => 3,
    }
}

// Whether contents of three octets or more have another length than what they report has.
fn is_misfit(matter: Matter, length: usize) -> bool
    ensures { result ≡ report_misfits matter length }
{
    is_matter_interpreted(matter) && length != size_of(matter) as usize
}

// The channel is over 200, or the map says of what was not measured what it showed.
fn is_forbidden(matter: Matter) -> bool
    ensures { result ≡ report_forbids matter }
{
    match matter {
        Matter::Measured { span, found } => span.is_forbidden() || found.is_forbidden(),
        _ => false,
    }
}

// At most so many of Late, Incapable and Refused are set.
const MOST_FLAGS: u8 = 1;

// The reading of a refusal: it has no report beside it.
pub fn refused(refusal: Refusal) -> Result<Report, Refusal>
    ensures { result ≡ Err refusal }
{
    Err(refusal)
}

#[tactic(auto, unfolding(crate::specs::MeasurementReport::report_means, answer::specs::Checks::checked))]
pub fn read(contents: &[u8]) -> Result<Report, Refusal>
    ensures { result ≡ report_means contents.now }
{
    if contents.len() < 3 {
        return refused(Refusal::WrongLength);
    }
    if MOST_FLAGS < flags_in(contents[1]) {
        return refused(Refusal::ForbiddenValue);
    }
    let report = report_in(contents);
    if is_misfit(report.matter, contents.len()) {
        return refused(Refusal::WrongLength);
    }
    if is_forbidden(report.matter) {
        return refused(Refusal::ForbiddenValue);
    }
    Ok(report)
}

// Whether an octet after the span has no reserved bit set.
fn is_map_clear(matter: Matter, octet: u8) -> bool
    ensures { result ≡ map_clear matter octet }
{
    match matter {
        Matter::Measured { found, .. } => found.is_clear(octet),
        _ => true,
    }
}

// Whether no reserved bit is set: in the mode, bits 3 to 7 are reserved, and in a map bits 5 to 7.
pub fn is_clear(contents: &[u8]) -> bool
    ensures { result ≡ report_clear contents.now }
{
    let mode = octets::octet_at(contents, 1);
    let matter = matter_in(contents, mode, octets::octet_at(contents, 2));
    mode < 8 && is_map_clear(matter, octets::octet_at(contents, 14))
}

// Whether nothing in the report is uninterpreted.
pub fn is_interpreted(report: Report) -> bool
    ensures { result ≡ report_interpreted report }
{
    is_matter_interpreted(report.matter)
}

// The mode, with every reserved bit 0.
fn mode_of(matter: Matter) -> u8
    ensures { result ≡ report_mode matter }
{
    match matter {
        Matter::NotMeasured(Reason::Late) => 1,
        Matter::NotMeasured(Reason::Incapable) => 2,
        Matter::NotMeasured(Reason::Refused) => 4,
        _ => 0,
    }
}

// The span that is written, where one is.
fn span_of(matter: Matter) -> Span
    ensures { result ≡ report_span matter }
{
    match matter {
        Matter::Measured { span, .. } => span,
        _ => Span::none(),
    }
}

// The octet after the span.
fn last_of(matter: Matter, density: u8) -> u8
    ensures { result ≡ report_last matter density }
{
    match matter {
        Matter::Measured { found, .. } => found.octet(density),
        _ => 0,
    }
}

// Whether this type can report this; uninterpreted contents are never written.
// Kept as a match: each case has an answer of its own.
fn agrees(matter: Matter, kind: u8) -> bool
    ensures { result ≡ report_agrees matter kind }
{
    match matter {
        Matter::NotMeasured(_) => true,
        Matter::Measured { found, .. } => found.agrees(kind),
        Matter::Uninterpreted => false,
    }
}

// Whether there are densities only where there is a histogram.
#[tactic(auto, using(crate::proofs::Silence::none_of_eight))]
fn is_silent(matter: Matter, densities: [u8; 8]) -> bool
    ensures { result ≡ silent matter densities }
{
    is_histogram(matter) || densities == NO_DENSITIES
}

// Whether the reader would take the report back, and nothing in it is uninterpreted.
#[tactic(auto, unfolding(crate::specs::MeasurementReport::report_may))]
pub fn may_write(report: Report) -> bool
    ensures { result ≡ report_may report }
{
    !is_forbidden(report.matter)
        && agrees(report.matter, report.kind)
        && is_silent(report.matter, report.densities)
}

// The element's octets, and after those of a shorter report some that are not written.
// Kept as one literal, in the order of `report_built`: by slices each part would need its place.
// The count is kept beside it: there is no heap.
pub fn to_octets(report: Report) -> [u8; 24]
    ensures { (length result ≡ 24) × (take (length (report_octets report)) result ≡ report_octets report) × (result ≡ report_built report) }
{
    let d = report.densities;
    let s = span_of(report.matter).to_octets();
    [
        ID,
        size_of(report.matter),
        report.token,
        mode_of(report.matter),
        report.kind,
        s[0],
        s[1],
        s[2],
        s[3],
        s[4],
        s[5],
        s[6],
        s[7],
        s[8],
        s[9],
        s[10],
        last_of(report.matter, d[0]),
        d[1],
        d[2],
        d[3],
        d[4],
        d[5],
        d[6],
        d[7],
    ]
}

// How many octets the element has, with its ID and its length.
pub fn octet_count(report: Report) -> usize
    ensures { (result ≡ length (report_octets report)) × (result ≤ 24) }
{
    // A cast as yet: with usize::from the answers do not fit as they stand.
    2 + (size_of(report.matter) as usize)
}

#[tactic(auto, using(octets::proofs::Overwriting::written_as))]
pub fn write(report: Report, buffer: &mut [u8], at: usize) -> Result<usize, Refusal>
    ensures { Written (report_may report) (report_octets report) at buffer.old result buffer.new }
{
    let bytes = to_octets(report);
    let count = octet_count(report);
    octets::put(may_write(report), &bytes[..count], buffer, at)
}
