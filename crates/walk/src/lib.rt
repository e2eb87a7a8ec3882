// The walk over a run of elements (document 01, "Octets": an ID, a length, contents; 802.11h 7.3.2).
#![tactic(auto)]

ghost use Rattle.std.specs.Prelude.{◌≡◌, ◌+◌, length, drop, ltb};
ghost use Rattle.walk.specs.CodeTerms.Found.{follow, Within};
ghost use Rattle.walk.specs.CodeTerms.Next.{next_after};
ghost use Rattle.walk.specs.CodeTerms.Required.{required_told, RequiredWithin};
ghost use Rattle.walk.specs.Elements.{elements_in};
ghost use Rattle.walk.specs.Handed.{passing_in, handed_in};
ghost use Rattle.walk.specs.Required.{required};

use answer::{Fault, Refusal};

// The ID of vendors' elements, which the walk of an action body passes over after its first element (document 02, Four).
const VENDOR: u8 = 221;

// What stands at a place of a run: nothing, this one octet that is no header, a header whose contents run past the end, or an
// element with its contents from `start` up to `end`.
// Kept as an enum of its own: an Option of a Result would name the four cases in two steps.
#[derive(Clone, Copy)]
pub enum Found {
    End,
    CutHeader(u8),
    CutContents(u8),
    Whole { id: u8, start: usize, end: usize },
}

// The element at a place: the contents are the part of the run that begins at `start`, and the next element is at `end`.
#[tactic(auto, using(crate::proofs::Walking::at_end, crate::proofs::Walking::at_cut_header, crate::proofs::Walking::at_cut_contents, crate::proofs::Walking::at_whole))]
pub fn element_at(run: &[u8], at: usize) -> Found
    ensures run_value { elements_in (drop at run.now) ≡ follow run.now result }
    ensures within { Within at (length run.now) result }
{
    if run.len() <= at {
        return Found::End;
    }
    let left = run.len() - at;
    let id = run[at];
    if left < 2 {
        return Found::CutHeader(id);
    }
    let start = at + 2;
    let length = usize::from(octets::octet_at(run, at + 1));
    if run.len() - start < length {
        return Found::CutContents(id);
    }
    Found::Whole {
        id,
        start,
        end: start + length,
    }
}

// Where the contents of an element lie: they are the part of the run from `start` up to `end`.
#[derive(Clone, Copy)]
pub struct Contents {
    pub start: usize,
    pub end: usize,
}

// The element of this ID that has to stand at a place. One of a vendor is another element there.
#[tactic(auto, unfolding(crate::specs::Required::required, crate::specs::Handed::handing, answer::specs::Checks::checked))]
pub fn required_at(run: &[u8], at: usize, id: u8) -> Result<Contents, Refusal>
    ensures result_value { required_told run.now result ≡ required id (handed_in (drop at run.now)) }
    ensures required_within { RequiredWithin at (length run.now) result }
{
    match element_at(run, at) {
        Found::End => Err(Refusal::ElementAbsent),
        Found::CutHeader(_) => Err(Refusal::ElementCut),
        Found::CutContents(found) if found == id => Err(Refusal::ElementCut),
        Found::Whole {
            id: found,
            start,
            end,
        } if found == id => Ok(Contents { start, end }),
        _ => Err(Refusal::OtherElement),
    }
}

// Where the walk goes on after an element: past vendors' elements, as many as there are. One of them that is cut is refused, at its place.
#[tactic(auto, unfolding(crate::specs::CodeTerms::Next::next_after, crate::specs::Handed::passing), using(crate::proofs::Walking::next_place))]
pub fn pass_over(run: &[u8], start: usize) -> Result<usize, Fault>
    ensures { result ≡ next_after start (passing_in (drop start run.now)) }
{
    let mut at = start;
    loop {
        match element_at(run, at) {
            Found::Whole {
                id: VENDOR,
                start: _,
                end,
            } => at = end,
            Found::CutHeader(VENDOR) | Found::CutContents(VENDOR) => return Err(Fault::at(
                Refusal::ElementCut,
                at,
            )),
            _ => return Ok(at),
        }
    }
}

// Whether octets are left from a place on.
pub fn has_left_over(run: &[u8], at: usize) -> bool
    ensures { result ≡ ltb at (length run.now) }
{
    at < run.len()
}
