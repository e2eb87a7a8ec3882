// The writer that may be refused: most other such writers hand it the octets, and whether they may be written. Lines of the list are put where there is
// room for them, which is judged once for many (`capture`).
ghost use Rattle.std.specs.Prelude.{◌≡◌, ℕ, ◌+◌, ◌<◌, ◌≤◌, length, IfOk};
ghost use Rattle.octets.specs.Writing.{room, stored_by, over, Written};

use answer::Refusal;

// The answer for so many octets from a place on, in a buffer of so many.
#[tactic(auto, unfolding(crate::specs::Writing::room, answer::specs::Checks::checked))]
fn judge(may: bool, count: usize, at: usize, size: usize) -> Result<usize, Refusal>
    ensures value { result ≡ room may count at size }
    ensures inside { IfOk result (λ n. (n ≡ count) × (at + n ≤ size)) }
{
    if !may {
        return Err(Refusal::Impossible);
    }
    if size < at {
        return Err(Refusal::BufferShort);
    }
    if size - at < count {
        return Err(Refusal::BufferShort);
    }
    Ok(count)
}

// How many octets are stored: a refusal stores none.
fn stored(answer: Result<usize, Refusal>) -> usize
    ensures { result ≡ stored_by answer }
{
    answer.unwrap_or(0)
}

// Octets, copied into a buffer from a place on.
// Kept place by place: between two slices that are lent `copy_from_slice` needs `memmove` of whoever links the library.
fn copy(octets: &[u8], buffer: &mut [u8], at: usize)
    requires { (i : ℕ) → i < length octets.now → at + i < length buffer.old }
    ensures { buffer.new ≡ over buffer.old at octets.now }
{
    for i in 0..octets.len() {
        buffer[at + i] = octets[i];
    }
}

// Refuses what may not be written (16), then a buffer that is too short (13); else puts the octets into the buffer from `at`
// on. Every other byte stays, and a refusal puts none.
pub fn put(may: bool, octets: &[u8], buffer: &mut [u8], at: usize) -> Result<usize, Refusal>
    ensures { Written may octets.now at buffer.old result buffer.new }
{
    let answer = judge(may, octets.len(), at, buffer.len());
    copy(&octets[..stored(answer)], buffer, at);
    answer
}
