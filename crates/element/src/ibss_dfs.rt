// Element 41, IBSS DFS (document 02, Five; 7.3.2.24).
ghost use Rattle.std.specs.Prelude.{◌≡◌, Err};
ghost use Rattle.octets.specs.Writing.{Written};
ghost use Rattle.element.specs.IbssDfs.{pairs_in, dfs_forbids, dfs_means, dfs_laid, pair_means, dfs_of, dfs_may_of, dfs_may, dfs_octets};

use answer::Refusal;

pub const ID: u8 = 41;

// The octets of the contents before the pairs, and those of a pair.
const FIXED_LENGTH: usize = 7;

const PAIR: usize = 2;

// The octets of an element before its pairs: its ID and its length, then the fixed ones.
const HEAD: usize = 9;

// The most octets that the pairs of an element have, and an element that has them: its length is one octet.
const LONGEST_PAIRS: usize = 248;

const LONGEST: usize = 257;

// Who decides on a switch, after how many TBTTs without its beacons it is given up, and how many pairs of channel and map there are. These are not
// judged, and stay in the contents.
#[derive(Clone, Copy)]
pub struct IbssDfs {
    pub owner: [u8; 6],
    pub recovery: u8,
    pub pairs: usize,
}

// A channel and what was measured on it.
#[derive(Clone, Copy)]
pub struct ChannelMap {
    pub channel: u8,
    pub map: u8,
}

// The recovery interval is 0, or the owner is a group.
fn is_forbidden(owner: [u8; 6], recovery: u8) -> bool
    ensures { result ≡ dfs_forbids owner recovery }
{
    recovery == 0 || owner[0] % 2 == 1
}

// How many pairs contents of so many octets have.
fn pairs_in(length: usize) -> usize
    ensures { result ≡ pairs_in length }
{
    length.saturating_sub(FIXED_LENGTH) / PAIR
}

#[tactic(auto, unfolding(crate::specs::IbssDfs::dfs_means, answer::specs::Checks::checked))]
pub fn read(contents: &[u8]) -> Result<IbssDfs, Refusal>
    ensures { result ≡ dfs_laid (dfs_means contents.now) }
{
    if contents.len() < FIXED_LENGTH || (contents.len() - FIXED_LENGTH) % PAIR != 0 {
        return Err(Refusal::WrongLength);
    }
    let owner = octets::address_at(contents, 0);
    let recovery = contents[6];
    if is_forbidden(owner, recovery) {
        return Err(Refusal::ForbiddenValue);
    }
    let pairs = pairs_in(contents.len());
    Ok(IbssDfs {
        owner,
        recovery,
        pairs,
    })
}

// The pair at an index, in the contents that hold it.
#[tactic(auto, unfolding(crate::specs::IbssDfs::pair_means, answer::specs::Checks::checked))]
pub fn pair_at(contents: &[u8], index: usize) -> Result<ChannelMap, Refusal>
    ensures { result ≡ pair_means index contents.now }
{
    if pairs_in(contents.len()) <= index {
        return Err(Refusal::Impossible);
    }
    let at = FIXED_LENGTH + PAIR * index;
    Ok(ChannelMap {
        channel: contents[at],
        map: contents[at + 1],
    })
}

// Whether the reader would take it back, with pairs of so many octets.
fn may_write(owner: [u8; 6], recovery: u8, length: usize) -> bool
    ensures { result ≡ dfs_may_of owner recovery length }
{
    !is_forbidden(owner, recovery) && length % PAIR == 0 && length <= LONGEST_PAIRS
}

// The pairs are handed in as their octets, channel and map in turn.
pub fn write(
    owner: [u8; 6],
    recovery: u8,
    pairs: &[u8],
    buffer: &mut [u8],
    at: usize,
) -> Result<usize, Refusal>
    ensures { Written (dfs_may (dfs_of owner recovery pairs.now)) (dfs_octets (dfs_of owner recovery pairs.now)) at buffer.old result buffer.new }
{
    if !may_write(owner, recovery, pairs.len()) {
        return Err(Refusal::Impossible);
    }
    // Kept as one literal, in the order of the octets: by slices the owner would need its place.
    let head = [
        ID,
        (FIXED_LENGTH + pairs.len()) as u8,
        owner[0],
        owner[1],
        owner[2],
        owner[3],
        owner[4],
        owner[5],
        recovery,
    ];
    let end = HEAD + pairs.len();
    let mut element = [0u8; LONGEST];
    element[..HEAD].copy_from_slice(&head);
    element[HEAD..end].copy_from_slice(pairs);
    octets::put(true, &element[..end], buffer, at)
}
