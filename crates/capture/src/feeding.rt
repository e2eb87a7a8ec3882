// Listing a capture block by block (document 01, "Capture blocks and the evening list").
ghost use Rattle.std.specs.Prelude.{◌≡◌, ◌<◌, ◌≤◌, length};
ghost use Rattle.octets.specs.Writing.{filled};
ghost use Rattle.capture.specs.CodeTerms.Following.{Fed};
ghost use Rattle.capture.specs.CodeTerms.Rooms.{room_for, listed_as};
ghost use Rattle.capture.specs.Feeding.{enough_room, feed_means, FedWith};
ghost use Rattle.capture.specs.Listers.{block_limit, Fits};
ghost use Rattle.capture.specs.Lists.{block_told, blocks_in, blocks_told};

use crate::listing::Put;
use crate::{Lister, listing};
use answer::Refusal;

// How many octets of the buffer are lines, or why there are none, and the lister after them: the same as before where there are none.
// Kept beside one another: a refused call gives the lister back, and `FedWith` promises which.
#[derive(Clone, Copy)]
pub struct Listing {
    pub wrote: Result<usize, Refusal>,
    pub lister: Lister,
}

// The lines of a block, damaged or not. One of another length is damaged whatever it holds, as any short block is.
fn put_block(lister: Lister, block: &[u8], out: &mut [u8]) -> Put
    requires fits { Fits lister }
    requires few_blocks { lister.blocks < block_limit }
    requires room { enough_room ≤ length out.old }
    ensures fed { Fed lister (block_told block.now lister) result }
    ensures out_after { out.new ≡ filled (block_told block.now lister).text out.old }
{
    if block.len() == block::SIZE {
        return listing::put_blocks(lister, block, out);
    }
    listing::put_blocks(lister, &[0], out)
}

// Whether so many blocks more may be listed into a buffer of so many octets. What the limit and the buffer leave is compared: a sum or a product could wrap.
#[tactic(auto, unfolding(crate::specs::CodeTerms::Rooms::room_for, answer::specs::Checks::checked))]
fn room_for(blocks: u64, many: usize, size: usize) -> Result<(), Refusal>
    requires { blocks ≤ block_limit }
    ensures { result ≡ room_for blocks many size }
{
    if Lister::BLOCK_LIMIT - blocks < many as u64 {
        return Err(Refusal::Impossible);
    }
    if size / Lister::ROOM < many {
        return Err(Refusal::BufferShort);
    }
    Ok(())
}

// No lines, and the lister as it was.
fn refused(lister: Lister, refusal: Refusal) -> Listing
    ensures { result ≡ record { wrote = Err refusal; lister = lister } }
{
    Listing {
        wrote: Err(refusal),
        lister,
    }
}

// The lines that were put.
fn listed(put: Put) -> Listing
    ensures { result ≡ listed_as put }
{
    Listing {
        wrote: Ok(put.count),
        lister: put.lister,
    }
}

impl Lister {
    // The lines of a block, from the front of the buffer on. Any octets may be handed in as a block: a short last one is damaged.
    #[tactic(auto, using(crate::proofs::Fitting::roomy))]
    pub fn feed(self, block: &[u8], out: &mut [u8]) -> Listing
        requires { Fits self }
        ensures fed_with { FedWith (feed_means self 1 (block_told block.now self) (length out.old)) self out.old result out.new }
        ensures fits { Fits result.lister }
    {
        match room_for(self.blocks, 1, out.len()) {
            Err(refusal) => refused(self, refusal),
            Ok(()) => listed(put_block(self, block, out)),
        }
    }

    // The lines of the blocks of some octets, in the same way.
    #[tactic(auto, using(crate::proofs::Fitting::roomy, crate::proofs::FedBlocks::blocks_counted))]
    pub fn feed_all(self, blocks: &[u8], out: &mut [u8]) -> Listing
        requires { Fits self }
        ensures fed_with { FedWith (feed_means self (length (blocks_in blocks.now)) (blocks_told (blocks_in blocks.now) self) (length out.old)) self out.old result out.new }
        ensures fits { Fits result.lister }
    {
        match room_for(self.blocks, block::count_in(blocks.len()), out.len()) {
            Err(refusal) => refused(self, refusal),
            Ok(()) => listed(listing::put_blocks(self, blocks, out)),
        }
    }
}
