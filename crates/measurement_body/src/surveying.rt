// One walk of a body of measurement elements.
ghost use Rattle.std.specs.Prelude.{◌≡◌};
ghost use Rattle.measurement_body.specs.Kinds.{sort_of};
ghost use Rattle.measurement_body.specs.Surveys.{surveyed};

use crate::judging;
use crate::kinds::Kind;
use answer::{Fault, Refusal};
use walk::Contents;

// What one walk finds out.
// Kept as flags: each is a fact of all elements, and no value beside it hangs on it.
#[derive(Clone, Copy)]
pub struct Surveyed {
    // how many elements there are
    pub count: usize,
    // where the contents of the one at the index that was asked for lie
    pub place: Option<Contents>,
    // whether one has the token that was asked for
    pub hit: bool,
    // whether nothing is uninterpreted, no reserved bit is set and no vendor's element is there
    pub plain: bool,
}

// The elements of a body after its fixed fields, of which there is one or more. The tokens that were met are marked, so that a repeat is found at once.
pub fn survey(body: &[u8], kind: Kind, index: usize, token: u8) -> Result<Surveyed, Fault>
    ensures { result ≡ surveyed (sort_of kind) index token body.now }
{
    let mut marks = [false; 256];
    let mut count: usize = 0;
    let mut at: usize = action::FIXED_FIELDS;
    let mut place = None;
    let mut plain = true;
    loop {
        let at_element = |refusal| Fault::at(refusal, at);
        let contents = walk::required_at(body, at, kind.id()).map_err(at_element)?;
        let judged = judging::judge(kind, &body[contents.start..contents.end]).map_err(at_element)?;
        // Casts as yet, here and below: with usize::from the answers do not fit as they stand.
        let mark = judged.token as usize;
        if kind.has_tokens_once() && marks[mark] {
            return Err(Fault::at(Refusal::Repeated, at));
        }
        marks[mark] = true;
        at = walk::pass_over(body, contents.end)?;
        if count == index {
            place = Some(contents);
        }
        plain = plain && judged.plain && at == contents.end;
        count += 1;
        if !walk::has_left_over(body, at) {
            let hit = marks[token as usize];
            return Ok(Surveyed {
                count,
                place,
                hit,
                plain,
            });
        }
    }
}
