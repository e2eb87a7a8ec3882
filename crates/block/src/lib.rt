// A block of the capture (document 01, "Capture blocks and the evening list").
#![tactic(auto)]

ghost use Rattle.std.specs.Prelude.{◌≡◌, ◌+◌, ◌%◌};
ghost use Rattle.octets.specs.Sums.{sum_of};
ghost use Rattle.block.specs.Blocks.{checked_length, is_damaged, end_after, block_means, blocks_of};

// How many octets a block has, how many of them come before its check, and how many of these the records may use.
pub const SIZE: usize = 512;

pub const CHECKED: usize = 510;

pub const PAYLOAD: usize = 508;

// The check of octets: 1 plus their sum, modulo 65,536.
fn checksum(octets: &[u8]) -> u16
    ensures { result ≡ (1 + sum_of octets.now) % 65536 }
{
    octets.iter().fold(1, |check: u16, octet| check.wrapping_add(u16::from(*octet)))
}

// Whether the length of a block, its check or its used length is wrong. A short last block is damaged.
fn is_damaged(block: &[u8]) -> bool
    ensures { result ≡ is_damaged block.now }
{
    block.len() != SIZE
        || octets::number16(block, CHECKED) != checksum(&block[..CHECKED])
        || usize::from(octets::number16(block, 0)) > PAYLOAD
}

// How many octets of the payload of a block are used; none is said of one that is damaged. Any octets at all may be handed in.
#[tactic(auto, unfolding(crate::specs::Blocks::block_means))]
pub fn judge(block: &[u8]) -> Option<usize>
    ensures { result ≡ block_means block.now }
{
    if is_damaged(block) {
        return None;
    }
    Some(usize::from(octets::number16(block, 0)))
}

// Where the block ends that begins at a place of a file of so many octets: the last one may be short.
pub fn end_after(at: usize, size: usize) -> usize
    ensures { result ≡ end_after at size }
{
    at.saturating_add(SIZE).min(size)
}

// How many blocks so many octets are: a last one may be short.
pub fn count_in(size: usize) -> usize
    ensures { result ≡ blocks_of size }
{
    size.div_ceil(SIZE)
}
