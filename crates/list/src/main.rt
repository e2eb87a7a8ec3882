// The evening list of a capture: standard input to standard output (document 01, "Capture blocks and the evening list").
// An error is told on standard error, and there is then no closing line: a cut list is never taken for a whole one.
#![tactic(auto)]

mod input;
mod output;

ghost use Rattle.std.specs.Prelude.{length, ◌%◌, ◌≡◌};
ghost use Rattle.block.specs.Blocks.{block_size};
ghost use Rattle.capture.specs.Listers.{Fits};
ghost use Rattle.list.specs.Program.{Within, PieceOf, Turned, TurnFits, Reached};

use capture::Lister;
use input::Filled;
use output::Cut;
use std::io;
use std::io::{Read, Write};

// How many blocks are listed at a time, how many octets they are, and the room that their lines always find.
const BLOCKS: usize = 32;

const INPUT: usize = BLOCKS * block::SIZE;

const OUTPUT: usize = BLOCKS * Lister::ROOM;

// Where the listing stands after a buffer that was listed: there is more of the input, or it has ended.
// Kept as an enum of its own: both cases hold the lister, and Ok and Err would call the end a failure.
#[derive(Clone, Copy)]
enum Listed {
    More(Lister),
    Last(Lister),
}

// How many octets of a buffer are listed. Where a read failed, a block that is cut there is not the file's short last one, so only whole blocks are.
fn piece_of(filled: Filled, size: usize) -> usize
    requires { Within filled size }
    ensures { PieceOf filled result size }
{
    match filled {
        Filled::Full => size,
        Filled::Ended(count) => count,
        Filled::Failed(count) => count - count % block::SIZE,
    }
}

// Reads a buffer of octets, and lists its blocks.
fn turn<R: Read, W: Write>(
    from: &mut R,
    to: &mut W,
    lister: Lister,
    input: &mut [u8],
    out: &mut [u8],
) -> Result<Listed, Cut>
    requires { Fits lister }
    ensures turned { Turned lister input.new out.old result out.new }
    ensures fits { TurnFits result }
    ensures len { length input.new ≡ length input.old }
{
    let filled = input::fill(from, input);
    let count = piece_of(filled, input.len());
    let next = output::list_blocks(to, lister, &input[..count], out)?;
    match filled {
        Filled::Full => Ok(Listed::More(next)),
        Filled::Ended(_) => Ok(Listed::Last(next)),
        Filled::Failed(_) => Err(Cut::ReadFailed),
    }
}

// Turn after turn, until the input has ended. A proved loop has to end, and nothing says that the input does: each turn but the last lists a block, of which
// there are not so many.
fn list_all<R: Read, W: Write>(
    from: &mut R,
    to: &mut W,
    input: &mut [u8],
    out: &mut [u8],
) -> Result<Listed, Cut>
    requires { length input.old % block_size ≡ 0 }
    ensures { Reached result }
{
    let mut lister = Lister::fresh();
    'turns: for _ in 0..Lister::BLOCK_LIMIT {
        match turn(from, to, lister, input, out)? {
            Listed::More(next) => lister = next,
            Listed::Last(last) => return Ok(Listed::Last(last)),
        }
    }
    Ok(Listed::More(lister))
}

fn list<R: Read, W: Write>(from: &mut R, to: &mut W) -> Result<(), Cut> {
    let mut input = [0u8; INPUT];
    let mut out = [0u8; OUTPUT];
    let listed = list_all(from, to, &mut input, &mut out);
    output::close(to, listed)
}

fn main(rt: HostRuntime) -> io::Result<()> {
    let errors = &mut rt.stderr();
    match list(&mut rt.stdin(), &mut rt.stdout()) {
        Ok(()) => Ok(()),
        Err(Cut::ReadFailed) => {
            errors.write_all(b"list: the input could not be read to its end; the list is cut\n")
        }
        Err(Cut::WriteFailed) => {
            errors.write_all(b"list: the list could not be written; it is cut\n")
        }
        Err(Cut::TooLong) => {
            errors.write_all(
                b"list: there are more than 36028797018963968 blocks; the list is cut\n",
            )
        }
    }
}
