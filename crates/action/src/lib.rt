// How an action body begins (document 01, "Octets" and "Order"; 802.11h 7.2.3.12, 7.3.1.11 and 7.4.1): category, action and, but for action 4, a dialog token.
#![tactic(auto)]

ghost use Rattle.std.specs.Prelude.{◌≡◌};
ghost use Rattle.action.specs.Openings.{forbids_token, opens_with};

use answer::{Fault, Refusal};

// Where the fields stand in a body.
pub const CATEGORY: usize = 0;

const ACTION: usize = 1;

const TOKEN: usize = 2;

// How many octets stand before the elements: category, action and token. Action 4 has no token.
pub const FIXED_FIELDS: usize = 3;

pub const SWITCH_FIXED_FIELDS: usize = 2;

// How a body begins: with no token (action 4), or with an action below 4 and its token.
// Kept as a number: `opens_with` and `forbids_token`, which theorems cite, say the action so.
#[derive(Clone, Copy)]
pub enum Opening {
    Switch,
    Token { action: u8, token: u8 },
}

// Token 0 is forbidden in actions 0 and 2; reports may have it.
pub fn forbids_token(action: u8, token: u8) -> bool
    ensures { result ≡ forbids_token action token }
{
    (action == 0 || action == 2) && token == 0
}

// The fields in front of a body's elements, each checked before the next is looked for.
#[tactic(auto, unfolding(crate::specs::Openings::opens_with, answer::specs::Checks::checked))]
pub fn open(body: &[u8]) -> Result<Opening, Fault>
    ensures { result ≡ opens_with body.now }
{
    if body.len() <= CATEGORY {
        return Err(Fault::nowhere(Refusal::TooShort));
    }
    if body[CATEGORY] != 0 {
        return Err(Fault::at(Refusal::ForeignAction, CATEGORY));
    }
    if body.len() <= ACTION {
        return Err(Fault::nowhere(Refusal::TooShort));
    }
    let action = body[ACTION];
    if 4 < action {
        return Err(Fault::at(Refusal::ForeignAction, ACTION));
    }
    if action == 4 {
        return Ok(Opening::Switch);
    }
    if body.len() <= TOKEN {
        return Err(Fault::nowhere(Refusal::TooShort));
    }
    let token = body[TOKEN];
    if forbids_token(action, token) {
        return Err(Fault::at(Refusal::ForbiddenValue, TOKEN));
    }
    Ok(Opening::Token { action, token })
}
