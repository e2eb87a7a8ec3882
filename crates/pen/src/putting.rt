// Lines put into a lent buffer. The digits of a line's number are those that are kept, and a line of an accepted call ends in constant octets.
ghost use Rattle.std.specs.Prelude.{[], ◌∷◌, ◌++◌, ℕ, ◌+◌, ◌≤◌, length, None};
ghost use Rattle.pen.specs.Decimals.{decimal};
ghost use Rattle.pen.specs.Lines.{spelled, placed, line_of};
ghost use Rattle.pen.specs.Numerals.{numeral_end, numeral_room, Spells};
ghost use Rattle.pen.specs.CodeTerms.Putting.{OctetsPut, PiecesPut, LinePut};
ghost use Rattle.pen.specs.Rooms.{line_room, most_letters, offset_room};

use crate::numeral;
use crate::words::Word;

// So many octets are loaded and stored as one where they are copied together.
const PIECE: usize = 8;

// The octets, from a place on, and where they end.
// Kept as a loop of its own. `octets::put` would judge the room again, which is judged once for many lines. Between two slices that are lent
// `copy_from_slice` needs `memmove` of whoever links the library.
pub fn put(octets: &[u8], out: &mut [u8], at: usize) -> usize
    requires { at + length octets.now ≤ length out.old }
    ensures { OctetsPut octets.now at out.old result out.new }
{
    for i in 0..octets.len() {
        out[at + i] = octets[i];
    }
    at + octets.len()
}

// The digits, and where they end: the first of them in a whole piece, which is quicker than one by one, and few numbers have more. What comes along after
// them is put over by the rest of the line.
fn put_digits(digits: &[u8], from: usize, out: &mut [u8], at: usize) -> usize
    requires by_index { (n : ℕ) × Spells n digits.now from }
    requires numeral_room_in_bounds { at + numeral_room ≤ length out.old }
    ensures { (n : ℕ) → Spells n digits.now from → PiecesPut (decimal n) at out.old result out.new }
{
    let count = numeral::END - from;
    put(&digits[from..from + PIECE], out, at);
    if PIECE < count {
        put(&digits[from + PIECE..numeral::END], out, at + PIECE);
    }
    at + count
}

// The word, with a space on either side, and where they end.
fn put_word(word: Word, out: &mut [u8], at: usize) -> usize
    requires { at + most_letters + 2 ≤ length out.old }
    ensures { OctetsPut ((32 ∷ []) ++ (spelled word ++ (32 ∷ []))) at out.old result out.new }
{
    let spaced = put(b" ", out, at);
    let worded = put(word.letters(), out, spaced);
    put(b" ", out, worded)
}

// The line of an accepted call, and where it ends: its number, its word, and constant octets.
pub fn put_accepted(digits: &[u8], from: usize, word: Word, out: &mut [u8], at: usize) -> usize
    requires by_index { (n : ℕ) × Spells n digits.now from }
    requires line_room_in_bounds { at + line_room ≤ length out.old }
    ensures { (n : ℕ) → Spells n digits.now from → LinePut (line_of n word 0 None) at out.old result out.new }
{
    let numbered = put_digits(digits, from, out, at);
    let worded = put_word(word, out, numbered);
    put(b"0\n", out, worded)
}

// A number in decimal, and where it ends.
// Kept by hand: the octets are promised (`decimal`), which `write!` does not.
// Kept: how much room there has to be stands in each contract here: each part of a line takes its own.
pub fn put_number(number: u64, out: &mut [u8], at: usize) -> usize
    requires { at + length (decimal number) ≤ length out.old }
    ensures put { OctetsPut (decimal number) at out.old result out.new }
    ensures short { length (decimal number) ≤ numeral_end }
{
    let mut digits = [0; numeral::ROOM];
    let from = numeral::spell(number, &mut digits);
    put(&digits[from..numeral::END], out, at)
}

// The answer in decimal, and where it ends. Most have one digit, which needs no spelling.
// Kept by hand, as `put_number`.
fn put_answer(answer: u8, out: &mut [u8], at: usize) -> usize
    requires { at + numeral_end ≤ length out.old }
    ensures { OctetsPut (decimal answer) at out.old result out.new }
{
    if answer < 10 {
        out[at] = b'0' + answer;
        return at + 1;
    }
    put_number(u64::from(answer), out, at)
}

// The offset of the octet at fault, if there is one, and where it ends.
fn put_offset(offset: Option<usize>, out: &mut [u8], at: usize) -> usize
    requires { at + offset_room ≤ length out.old }
    ensures put { OctetsPut (placed offset) at out.old result out.new }
    ensures short { length (placed offset) ≤ offset_room }
{
    match offset {
        None => at,
        Some(before) => {
            let spaced = put(b" ", out, at);
            put_number(before as u64, out, spaced)
        }
    }
}

// The line of a record or a damaged block, and where it ends: its number, its word, the answer, and where a frame broke.
// The answer is kept as a number, as in `put_told`.
#[inline(always)]
pub fn put_line(
    digits: &[u8],
    from: usize,
    word: Word,
    answer: u8,
    offset: Option<usize>,
    out: &mut [u8],
    at: usize,
) -> usize
    requires by_index { (n : ℕ) × Spells n digits.now from }
    requires line_room_in_bounds { at + line_room ≤ length out.old }
    ensures { (n : ℕ) → Spells n digits.now from → LinePut (line_of n word answer offset) at out.old result out.new }
{
    let numbered = put_digits(digits, from, out, at);
    let worded = put_word(word, out, numbered);
    let answered = put_answer(answer, out, worded);
    let ended = put_offset(offset, out, answered);
    put(b"\n", out, ended)
}
