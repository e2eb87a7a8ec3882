// One element more in a body of either kind (document 01, "Octets": 0, action, token, elements).
ghost use Rattle.std.specs.Prelude.{◌++◌, ◌≡◌, ◌+◌, ◌≤◌, leb, eqb, length, take};
ghost use Rattle.action.specs.Openings.{fixed_fields};
ghost use Rattle.answer.specs.Checks.{pick};
ghost use Rattle.octets.specs.Writing.{Written};
ghost use Rattle.measurement_body.specs.Bodies.{longest_body, opening as opening_octets, begins};
ghost use Rattle.measurement_body.specs.CodeTerms.Appending.{longest_element, Fronts, may_join, may_follow, following};
ghost use Rattle.measurement_body.specs.Surveys.{surveyed};
ghost use Rattle.measurement_body.specs.Kinds.{sort_of};

use crate::kinds::Kind;
use crate::surveying;
use action::FIXED_FIELDS;
use answer::Refusal;

// How many octets a body may have: a frame has at most 2,336, and 24 of them are its header.
const LONGEST_BODY: usize = 2312;

// How many octets an element of either kind has at most.
const LONGEST_ELEMENT: usize = 24;

// How many octets a body of one element has at most.
const ROOM: usize = FIXED_FIELDS + LONGEST_ELEMENT;

// What a body is to be: its kind, and its token.
#[derive(Clone, Copy)]
pub struct Opening {
    pub kind: Kind,
    pub token: u8,
}

// An element that is to be put: its own token, whether it may be written at all, and its octets.
// Kept as a flag beside the octets: Written, which is promised, takes both, and octets::put takes both so.
#[derive(Clone, Copy)]
pub struct Element<'a> {
    pub token: u8,
    pub may: bool,
    pub octets: &'a [u8],
}

// Whether what is there begins such a body.
fn is_begun(there: &[u8], opening: Opening) -> bool
    ensures { result ≡ begins (sort_of opening.kind).action opening.token there.now }
{
    FIXED_FIELDS <= there.len()
        && there[0] == 0
        && there[1] == opening.kind.action()
        && there[2] == opening.token
}

// Whether a body may have an element of `count` octets after the `used` ones; with none used, the fixed fields come in front. What
// the longest body leaves is compared, since a sum could wrap.
fn stays_short(used: usize, count: usize) -> bool
    ensures { result ≡ leb (pick (eqb used 0) fixed_fields used + count) longest_body }
{
    let begun = if used == 0 { FIXED_FIELDS } else { used };
    begun <= LONGEST_BODY && count <= LONGEST_BODY - begun
}

// Whether an element with the token `own` may join those that are there, all of them plain.
fn may_join(there: &[u8], kind: Kind, own: u8) -> bool
    ensures { result ≡ may_join (sort_of kind).once (surveyed (sort_of kind) 0 own there.now) }
{
    match surveying::survey(there, kind, 0, own) {
        Err(_) => false,
        Ok(found) => found.plain && !(kind.has_tokens_once() && found.hit),
    }
}

// Whether an element may follow what is there. The length is judged before the walk, so that nothing longer than a body is walked.
#[tactic(auto, unfolding(crate::specs::CodeTerms::Appending::may_follow))]
fn may_follow(there: &[u8], opening: Opening, element: Element) -> bool
    ensures { result ≡ may_follow (sort_of opening.kind) opening.token element.entry.token (length element.entry.octets.now) element.entry.may there.now }
{
    element.may
        && !action::forbids_token(opening.kind.action(), opening.token)
        && stays_short(there.len(), element.octets.len())
        && (there.is_empty()
            || is_begun(there, opening) && may_join(there, opening.kind, element.token))
}

// A body of one element, and after it some octets that are not written.
// Kept as an array and a count: there is no heap.
fn body_octets(opening: Opening, element: &[u8]) -> [u8; ROOM]
    requires { length element.now ≤ longest_element }
    ensures { Fronts (opening_octets (sort_of opening.kind).action opening.token ++ element.now) result }
{
    let mut bytes = [0u8; ROOM];
    bytes[1] = opening.kind.action();
    bytes[2] = opening.token;
    bytes[FIXED_FIELDS..FIXED_FIELDS + element.len()].copy_from_slice(element);
    bytes
}

// The first octet that is put of such a body: with some octets used, the fixed fields are there already.
fn first_put(used: usize) -> usize
    ensures { result ≡ pick (eqb used 0) 0 fixed_fields }
{
    if used == 0 { 0 } else { FIXED_FIELDS }
}

// Writes an element after the first `used` octets of the buffer; with none used it starts a body. A buffer that has not even the octets in use is too short.
pub fn append(
    buffer: &mut [u8],
    used: usize,
    opening: Opening,
    element: Element,
) -> Result<usize, Refusal>
    requires { length element.octets.now ≤ longest_element }
    ensures { let e = element.entry in let s = sort_of opening.kind in let there = take used buffer.old in Written (may_follow s opening.token e.token (length e.octets.now) e.may there) (following s opening.token there e.octets.now) used buffer.old result buffer.new }
{
    let there = used.min(buffer.len());
    let allowed = may_follow(&buffer[..there], opening, element);
    let bytes = body_octets(opening, element.octets);
    let start = first_put(there);
    let end = FIXED_FIELDS + element.octets.len();
    octets::put(allowed, &bytes[start..end], buffer, used)
}
