// The leaves that count: a channel's centre, a signed octet, a busy fraction and eight densities.
use crate::page::Page;
use crate::{answers, say};
use std::io::Write;

// The answer, and the centre in MHz where there is one.
pub fn centre<W: Write>(page: &mut Page<W>, channel: u8) {
    let centre = channel::centre(channel);
    answers::given(page, centre, |page, mhz| say::number(page, u64::from(mhz)));
}

// A signed number, by its name where it is an edge.
fn edge(x: i8) -> &'static [u8] {
    match x {
        -128 => b" -128",
        -127 => b" -127",
        -1 => b" -1",
        0 => b" 0",
        1 => b" 1",
        127 => b" 127",
        _ => b" ?",
    }
}

// What an octet stands for, and the octet written again.
pub fn signed<W: Write>(page: &mut Page<W>, octet: u8) {
    let x = octets::to_signed(octet);
    say::text(page, edge(x));
    say::octet(page, octets::from_signed(x));
}

// The answer, and the fraction where there is one.
pub fn busy<W: Write>(page: &mut Page<W>, time: u32, duration: u16) {
    let fraction = fraction::busy_fraction(time, duration);
    answers::given(page, fraction, say::octet);
}

// The answer, and the eight numbers, which are 0 beside a refusal. The six first times are alike, and so are the last two.
pub fn densities<W: Write>(page: &mut Page<W>, six: u32, two: u32, duration: u16) {
    let times = [six, six, six, six, six, six, two, two];
    let densities = fraction::rpi_densities(times, duration);
    answers::tell(page, densities, true);
    say::octets(page, &densities.unwrap_or([0; 8]));
}
