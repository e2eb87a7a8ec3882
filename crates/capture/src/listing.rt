// The lines of the blocks of some octets, put into a lent buffer in one pass (document 01, "Capture blocks and the evening list").
ghost use Rattle.std.specs.Prelude.{◌≡◌, ◌+◌, ◌*◌, ◌≤◌, length};
ghost use Rattle.octets.specs.Writing.{filled};
ghost use Rattle.capture.specs.CodeTerms.Blocks.{BlockFound, rest_from};
ghost use Rattle.capture.specs.CodeTerms.Following.{Fed};
ghost use Rattle.capture.specs.CodeTerms.Noting.{heard_by};
ghost use Rattle.capture.specs.Feeding.{enough_room};
ghost use Rattle.capture.specs.Listers.{block_limit, Fits};
ghost use Rattle.capture.specs.Lists.{answer_line, blocks_in, blocks_told};
ghost use Rattle.capture.specs.declared.response.Response.{Response};
ghost use Rattle.pen.specs.Penning.{Ready, Penned};
ghost use Rattle.pen.specs.declared.words.Word.{Word};

use crate::parts::Parts;
use crate::plain::Ran;
use crate::{Lister, plain};
use answer::{Fault, Refusal};
use apart::Columns;
use capture_record::{Entry, Found};
use pen::{Pen, Word};

// The lister, and how many octets of the buffer are lines by now.
#[derive(Clone, Copy)]
pub struct Put {
    pub lister: Lister,
    pub count: usize,
}

// What stands at the place where a block may begin: no block, or a damaged or a whole one that ends at `end`. The records of a whole one end at `stop`.
// Kept as an enum of its own: an Option of a Result would name the three cases in two steps.
#[derive(Clone, Copy)]
enum BlockAt {
    End,
    Damaged { end: usize },
    Whole { stop: usize, end: usize },
}

#[tactic(auto, using(block::proofs::Ending::end_inside))]
fn block_at(blocks: &[u8], at: usize) -> BlockAt
    ensures { BlockFound blocks.now at result }
{
    if blocks.len() <= at {
        return BlockAt::End;
    }
    let end = block::end_after(at, blocks.len());
    match block::judge(&blocks[at..end]) {
        None => BlockAt::Damaged { end },
        Some(used) => BlockAt::Whole {
            stop: at + 2 + used,
            end,
        },
    }
}

// Where the listing goes on after a record: a malformed one drops the rest of its block.
fn goes_on(entry: Entry, end: usize, stop: usize) -> usize
    ensures { result ≡ rest_from entry end stop }
{
    match entry {
        Entry::Malformed => stop,
        _ => end,
    }
}

// Whether a record is a frame that a station hears.
fn is_heard(entry: Entry, active: bool) -> bool
    ensures { result ≡ heard_by active entry }
{
    active && matches!(entry, Entry::Frame)
}

// The line of a frame that a station heard.
// Kept as a number what the pen is handed, here and below: `pen::put_told` says why.
fn put_verdict(pen: Pen, digits: &mut [u8], verdict: Result<(), Fault>, out: &mut [u8]) -> Pen
    requires { Ready pen digits.old out.old }
    ensures { Penned (answer_line (pen.lines + 1) Word.Frame (Response.Frame verdict)) pen out.old result digits.new out.new }
{
    match verdict {
        Ok(()) => pen::put_accepted(pen, digits, Word::Frame, out),
        Err(fault) => {
            let number = fault.refusal.number();
            pen::put_told(pen, digits, Word::Frame, number, fault.offset, out)
        }
    }
}

// The lines of the blocks. The listing stands at a place `at` of a block whose records end at `stop`, and the next block begins at `after`. In place: a
// lister is long to copy.
pub fn put_blocks(lister: Lister, blocks: &[u8], out: &mut [u8]) -> Put
    requires fits { Fits lister }
    requires few_blocks { lister.blocks + length (blocks_in blocks.now) ≤ block_limit }
    requires room { length (blocks_in blocks.now) * enough_room ≤ length out.old }
    ensures fed { Fed lister (blocks_told (blocks_in blocks.now) lister) result }
    ensures out_after { out.new ≡ filled (blocks_told (blocks_in blocks.now) lister).text out.old }
{
    let mut columns = Columns::BLANK;
    let mut parts = Parts::of(lister, &mut columns);
    let mut digits = [0u8; pen::DIGITS];
    let mut pen = pen::begin(lister.lines, &mut digits);
    let mut clear = 0;
    let mut at = 0;
    let mut stop = 0;
    let mut after = 0;
    loop {
        let used = &blocks[..stop];
        let rest = parts.apart.rest;
        let here = Ran {
            at,
            clock: rest.clock,
            pen,
        };
        let ran = plain::run(
            used,
            here,
            parts.active,
            rest.pending,
            clear,
            &mut digits,
            out,
        );
        at = ran.at;
        pen = ran.pen;
        parts.apart.rest.clock = ran.clock;
        match capture_record::record_at(used, at) {
            Found::End => match block_at(blocks, after) {
                BlockAt::End => {
                    return Put {
                        lister: parts.whole(pen.lines, &columns),
                        count: pen.count,
                    };
                }
                BlockAt::Damaged { end } => {
                    let number = Refusal::BlockDamaged.number();
                    pen = pen::put_told(pen, &mut digits, Word::Block, number, None, out);
                    parts = parts.without();
                    parts.blocks += 1;
                    parts.damaged += 1;
                    at = end;
                    stop = end;
                    after = end;
                }
                BlockAt::Whole { stop: last, end } => {
                    parts.blocks += 1;
                    at = after + 2;
                    stop = last;
                    after = end;
                }
            },
            Found::Cut => {
                let number = Refusal::RecordMalformed.number();
                pen = pen::put_told(pen, &mut digits, Word::Record, number, None, out);
                parts = parts.without();
                at = stop;
            }
            Found::Whole { kind, start, end } => {
                let contents = &used[start..end];
                let entry = capture_record::entry_of(kind, contents);
                if is_heard(entry, parts.active) {
                    let told = parts.apart.hear(contents, &mut columns);
                    parts.apart = told.apart;
                    pen = put_verdict(pen, &mut digits, told.verdict, out);
                    clear = 0;
                    at = end;
                } else {
                    let noted = parts.note(entry, contents, &mut columns);
                    pen = pen::put_told(
                        pen,
                        &mut digits,
                        noted.word,
                        noted.number,
                        noted.offset,
                        out,
                    );
                    parts = noted.parts;
                    clear = noted.clear;
                    at = goes_on(entry, end, stop);
                }
            }
        }
    }
}
