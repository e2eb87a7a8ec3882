// The records of a block (document 01, "Capture blocks and the evening list": kind, length (2), contents).
#![tactic(auto)]

mod entry;

ghost use Rattle.std.specs.Prelude.{◌≡◌, length, drop};
ghost use Rattle.capture_record.specs.CodeTerms.Found.{follow, Within};
ghost use Rattle.capture_record.specs.Records.{records_in};

pub use entry::{Entry, Settings, entry_of, settings_in};

// What stands at a place of the used part of a block: nothing, a record that runs past the end, or a record with its contents from
// `start` up to `end`.
// Kept as an enum of its own: an Option of a Result would name the three cases in two steps.
#[derive(Clone, Copy)]
pub enum Found {
    End,
    Cut,
    Whole { kind: u8, start: usize, end: usize },
}

// The record at a place; the next one is at `end`.
#[tactic(auto, using(crate::proofs::Walking::ways))]
pub fn record_at(used: &[u8], at: usize) -> Found
    ensures used_value { records_in (drop at used.now) ≡ follow used.now result }
    ensures within { Within at (length used.now) result }
{
    if used.len() <= at {
        return Found::End;
    }
    let left = used.len() - at;
    if left < 3 {
        return Found::Cut;
    }
    let kind = used[at];
    let start = at + 3;
    let length = usize::from(octets::number16(used, at + 1));
    if used.len() - start < length {
        return Found::Cut;
    }
    Found::Whole {
        kind,
        start,
        end: start + length,
    }
}
