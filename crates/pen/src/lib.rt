// The lines of the list, put one after the other into a lent buffer (document 01, "Capture blocks and the evening list"). A line knows no station.
#![tactic(auto)]

mod last_line;
mod numeral;
mod putting;
mod words;

ghost use Rattle.std.specs.Prelude.{◌≡◌, ◌+◌, length, None};
ghost use Rattle.pen.specs.Lines.{line_of};
ghost use Rattle.pen.specs.Numerals.{numeral_room, Spells, with_numeral};
ghost use Rattle.pen.specs.Penning.{Ready, Penned};

pub use last_line::{Text, closing};
pub use words::Word;

// The digits of a line's number are kept in so many octets.
pub const DIGITS: usize = numeral::ROOM;

// The number of the latest line, where its digits begin in their room, and how many octets of the buffer are lines by now. The digits are counted up
// from line to line: to divide for each would cost more than the rest of a line.
// Kept: `Spells` stands in the contracts: the digits are lent and the pen is copied, so no type holds both.
#[derive(Clone, Copy)]
pub struct Pen {
    pub lines: u64,
    pub from: usize,
    pub count: usize,
}

// Before the first line that follows so many.
pub fn begin(lines: u64, digits: &mut [u8]) -> Pen
    requires { length digits.old ≡ numeral_room }
    ensures { (result.lines ≡ lines) × (result.count ≡ 0) × Spells lines digits.new result.from × (digits.new ≡ with_numeral digits.old lines) }
{
    let from = numeral::spell(lines, digits);
    Pen {
        lines,
        from,
        count: 0,
    }
}

// The next line tells a call that was accepted: this word, the answer 0, and no offset.
// Kept beside `put_told`: most lines are such, and end in constant octets, which is quicker
// (docs/BENCHMARKS.md).
pub fn put_accepted(pen: Pen, digits: &mut [u8], word: Word, out: &mut [u8]) -> Pen
    requires { Ready pen digits.old out.old }
    ensures penned { Penned (line_of (pen.lines + 1) word 0 None) pen out.old result digits.new out.new }
    ensures digits_after { digits.new ≡ with_numeral digits.old (pen.lines + 1) }
{
    let from = numeral::count_up(digits, pen.from);
    let count = putting::put_accepted(digits, from, word, out, pen.count);
    Pen {
        lines: pen.lines + 1,
        from,
        count,
    }
}

// The next line tells this word, the number of this answer, and where a frame broke.
// Kept as a number: with the answer itself frames were slower (docs/BENCHMARKS.md). Inlined, since
// most callers have a word that is known.
#[inline(always)]
pub fn put_told(
    pen: Pen,
    digits: &mut [u8],
    word: Word,
    number: u8,
    offset: Option<usize>,
    out: &mut [u8],
) -> Pen
    requires { Ready pen digits.old out.old }
    ensures penned { Penned (line_of (pen.lines + 1) word number offset) pen out.old result digits.new out.new }
    ensures digits_after { digits.new ≡ with_numeral digits.old (pen.lines + 1) }
{
    let from = numeral::count_up(digits, pen.from);
    let count = putting::put_line(digits, from, word, number, offset, out, pen.count);
    Pen {
        lines: pen.lines + 1,
        from,
        count,
    }
}
