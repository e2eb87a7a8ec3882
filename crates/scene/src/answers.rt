// What a call is answered with, by its number.
use crate::page::Page;
use crate::say;
use answer::{Fault, Refusal};
use std::io::Write;

// The answer, and where it is accepted what comes with it.
pub fn given<W: Write, T, F: FnOnce(&mut Page<W>, T) + Drop>(
    page: &mut Page<W>,
    answer: Result<T, Refusal>,
    tell: F,
)
    requires { F.IsAlwaysCallable tell }
{
    match answer {
        Err(refusal) => say::octet(page, refusal.number()),
        Ok(it) => {
            say::number(page, 0);
            tell(page, it);
        }
    }
}

// Of a call that only makes the scene ready nothing is told unless it is refused.
pub fn tell<W: Write, T: Copy>(page: &mut Page<W>, answer: Result<T, Refusal>, always: bool) {
    match answer {
        Err(refusal) => say::octet(page, refusal.number()),
        Ok(_) if always => say::number(page, 0),
        Ok(_) => {}
    }
}

// Of a writer: how many octets it wrote.
pub fn wrote<W: Write>(page: &mut Page<W>, answer: Result<usize, Refusal>) {
    given(page, answer, |page, count| say::number(page, count as u64));
}

// Why a frame is refused, and the offset of the octet at fault, where there is one.
pub fn fault<W: Write>(page: &mut Page<W>, fault: Fault) {
    say::octet(page, fault.refusal.number());
    if let Some(before) = fault.offset {
        say::number(page, before as u64);
    }
}

pub fn verdict<W: Write>(page: &mut Page<W>, verdict: Result<(), Fault>) {
    match verdict {
        Ok(()) => say::number(page, 0),
        Err(reason) => fault(page, reason),
    }
}
