// The list of a whole capture in memory (document 01, "Capture blocks and the evening list").
ghost use Rattle.std.specs.Prelude.{true, ◌≡◌, ◌<◌, ◌≤◌, length, IfOk};
ghost use Rattle.octets.specs.Writing.{left, Written};
ghost use Rattle.capture.specs.Feeding.{enough_room};
ghost use Rattle.capture.specs.Listers.{block_limit, Fits};
ghost use Rattle.capture.specs.Lists.{block_told, list_of};
ghost use Rattle.boundary.specs.CodeTerms.Passing.{passed, Passes};

use answer::Refusal;
use capture::Lister;

// Where a pass over the blocks stands: how many octets their lines are, and the lister after them.
#[derive(Clone, Copy)]
pub struct Progress {
    pub count: usize,
    pub lister: Lister,
}

// Lines after the `at` octets before them, or 13 where they do not fit: stored where `store` says so.
// Kept as a flag: of a list that does not fit nothing may be put, so the blocks are passed twice,
// and both passes are one walk.
fn put_lines(lines: &[u8], store: bool, out: &mut [u8], at: usize) -> Result<usize, Refusal>
    requires { at ≤ length out.old }
    ensures { Passes store lines.now at out.old result out.new }
{
    if store {
        return octets::put(true, lines, out, at);
    }
    if out.len() - at < lines.len() {
        return Err(Refusal::BufferShort);
    }
    Ok(lines.len())
}

// The lines of one block more, made in `room`, which always suffices; and no slice has so many blocks that a lister is full.
fn pass_block(
    before: Progress,
    block: &[u8],
    store: bool,
    room: &mut [u8],
    out: &mut [u8],
) -> Result<Progress, Refusal>
    requires fits { Fits before.lister }
    requires bounds { (before.lister.blocks < block_limit) × (enough_room ≤ length room.old) × (before.count ≤ length out.old) }
    ensures answer { result ≡ passed before.count (block_told block.now before.lister) out.old }
    ensures still_fits { IfOk result (λ p. Fits p.lister) }
    ensures out_after { out.new ≡ left store (block_told block.now before.lister).text before.count out.old }
{
    let listing = before.lister.feed(block, room);
    let made = listing.wrote?;
    let put = put_lines(&room[..made], store, out, before.count)?;
    Ok(Progress {
        count: before.count + put,
        lister: listing.lister,
    })
}

// The whole list. With `store` it is known to fit.
fn pass(file: &[u8], store: bool, out: &mut [u8]) -> Result<usize, Refusal>
    requires { store ≡ true → length (list_of file.now) ≤ length out.old }
    ensures { Passes store (list_of file.now) 0 out.old result out.new }
{
    let mut room = [0u8; Lister::ROOM];
    let mut passed = Progress {
        count: 0,
        lister: Lister::fresh(),
    };
    for block in file.chunks(block::SIZE) {
        passed = pass_block(passed, block, store, &mut room, out)?;
    }
    let closing = passed.lister.closing();
    let last = put_lines(&closing.bytes[..closing.count], store, out, passed.count)?;
    Ok(passed.count + last)
}

// The list of a capture, from the front of the buffer on, or nothing where the buffer is too short. The blocks are passed twice: once to see
// whether their lines fit, and once to store them.
pub fn list(file: &[u8], out: &mut [u8]) -> Result<usize, Refusal>
    ensures { Written true (list_of file.now) 0 out.old result out.new }
{
    pass(file, false, out)?;
    pass(file, true, out)
}
