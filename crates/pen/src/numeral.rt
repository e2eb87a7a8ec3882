// The number of the latest line as its digits. They are kept from line to line, since counting them up costs less than spelling a number anew.
ghost use Rattle.std.specs.Prelude.{◌≡◌, ℕ, ◌+◌, ◌-◌, ◌<◌, length};
ghost use Rattle.octets.specs.Writing.{over};
ghost use Rattle.pen.specs.Decimals.{decimal};
ghost use Rattle.pen.specs.Numerals.{numeral_end, numeral_room, numeral_limit, Spells};

// The digits end here: the longest number has so many.
pub const END: usize = 20;

// After the digits there is room for a whole piece more, so that the first of them can be copied as a piece of eight octets.
pub const ROOM: usize = 28;

// The digits of a number, and where they begin.
pub fn spell(number: u64, digits: &mut [u8]) -> usize
    requires { length digits.old ≡ numeral_room }
    ensures spells { Spells number digits.new result }
    ensures value { (result ≡ numeral_end - length (decimal number)) × (digits.new ≡ over digits.old (numeral_end - length (decimal number)) (decimal number)) }
{
    let mut from = END;
    let mut rest = number;
    // Kept as `while`: how many digits there are shows only at the last. `write!` would not promise the octets.
    while 10 <= rest {
        from -= 1;
        digits[from] = b'0' + (rest % 10) as u8;
        rest /= 10;
    }
    from -= 1;
    digits[from] = b'0' + rest as u8;
    from
}

// The digits of the next number, and where they begin: the nines at the end become zeros, and the digit before them one more.
pub fn count_up(digits: &mut [u8], from: usize) -> usize
    requires { (n : ℕ) × Spells n digits.old from × (n < numeral_limit) }
    ensures by_index { (n : ℕ) → Spells n digits.old from → Spells (n + 1) digits.new result }
    ensures by_index_2 { (n : ℕ) → Spells n digits.old from → (result ≡ numeral_end - length (decimal (n + 1))) × (digits.new ≡ over digits.old (numeral_end - length (decimal (n + 1))) (decimal (n + 1))) }
{
    for at in (from..END).rev() {
        if digits[at] != b'9' {
            digits[at] += 1;
            return from;
        }
        digits[at] = b'0';
    }
    digits[from - 1] = b'1';
    from - 1
}
