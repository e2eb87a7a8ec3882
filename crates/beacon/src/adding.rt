// What was said, and one element more. The Quiet elements stay with the caller, who has the slots: they are long to copy. One that finds a slot is put
// there by the caller, and does not come here.
ghost use Rattle.std.specs.Prelude.{List, ◌≡◌, ◌∷◌, [], Some, is_some};
ghost use Rattle.answer.specs.Checks.{◌⇒◌, judged};
ghost use Rattle.answer.specs.declared.Refusal.{Refusal};
ghost use Rattle.element.specs.declared.quiet.Quiet.{Quiet};
ghost use Rattle.beacon.specs.Beacons.{tells, adds, takes};
ghost use Rattle.beacon.specs.CodeTerms.Adding.{added_told, Slotless, SlotlessIn};

use crate::elements::Element;
use crate::{Notice, elements};
use answer::Refusal;

// What is said for the first time: a second time is a repeat.
#[tactic(auto, unfolding(answer::specs::Checks::checked))]
fn once<T: Copy>(before: Option<T>, now: T) -> Result<Option<T>, Refusal>
    ensures { result ≡ judged (is_some before ⇒ Refusal.Repeated ∷ []) (Some now) }
{
    match before {
        Some(_) => Err(Refusal::Repeated),
        None => Ok(Some(now)),
    }
}

// An element, where no slot is left for it if it is a Quiet element. A second 32, 35 or 37 is a repeat, and a Quiet element one too many.
#[tactic(auto, unfolding(answer::specs::Checks::checked))]
fn add(notice: Notice, element: Element) -> Result<Notice, Refusal>
    ensures { (qs : List Quiet) → Slotless qs element → added_told qs result ≡ adds (tells notice qs) element }
{
    match element {
        Element::Power(power) => Ok(Notice {
            power: once(notice.power, power)?,
            ..notice
        }),
        Element::Report(report) => Ok(Notice {
            report: once(notice.report, report)?,
            ..notice
        }),
        Element::Switch(switch) => Ok(Notice {
            switch: once(notice.switch, switch)?,
            ..notice
        }),
        Element::Quiet(_) => Err(Refusal::TooManyQuiets),
        Element::Other => Ok(notice),
    }
}

// An element by its ID and its contents.
#[tactic(auto, using(crate::proofs::Quieting::slotless), unfolding(crate::specs::Beacons::takes))]
pub fn add_element(
    notice: Notice,
    id: u8,
    contents: &[u8],
    interval: u16,
) -> Result<Notice, Refusal>
    ensures { (qs : List Quiet) → SlotlessIn qs interval id contents.now → added_told qs result ≡ takes interval id contents.now (tells notice qs) }
{
    add(notice, elements::element_of(id, contents, interval)?)
}
