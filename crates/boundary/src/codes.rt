// What a call gives back: a number of 0 or more, or a refusal as minus its number, in the 64 bits of a signed number.
// Kept as a number: it is all that a C function gives back.
ghost use Rattle.std.specs.Prelude.{◌≡◌, Ok};
ghost use Rattle.boundary.specs.Codes.{code_of, refusal_code, address_of, Given};
ghost use Rattle.boundary.specs.Stations.{answer_told, verdict_told};

use answer::{Fault, Refusal};

pub fn refused(refusal: Refusal) -> u64
    ensures { result ≡ refusal_code refusal }
{
    u64::from(refusal.number()).wrapping_neg()
}

pub fn wrote(answer: Result<usize, Refusal>) -> u64
    ensures { result ≡ code_of answer }
{
    match answer {
        Err(refusal) => refused(refusal),
        Ok(count) => count as u64,
    }
}

// Fields are put from the front of the buffer on, all or none.
pub fn given(fields: &[u8], out: &mut [u8]) -> u64
    ensures { Given (Ok fields.now) out.old result out.new }
{
    wrote(octets::put(true, fields, out, 0))
}

pub fn answered(answer: Result<(), Refusal>) -> u64
    ensures { result ≡ code_of (answer_told answer) }
{
    wrote(answer.map(|()| 0))
}

pub fn judged(verdict: Result<(), Fault>) -> u64
    ensures { result ≡ code_of (verdict_told verdict) }
{
    answered(verdict.map_err(|fault| fault.refusal))
}

// An address is its six octets, the first of them the least significant of the number; the two octets past them are not looked at.
pub fn address(number: u64) -> [u8; 6]
    ensures { result ≡ address_of number }
{
    octets::address_at(&octets::octets64(number), 0)
}
