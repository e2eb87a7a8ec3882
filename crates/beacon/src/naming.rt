// Element 41 in a beacon of an IBSS, which names the DFS owner (document 02, Five).
ghost use Rattle.std.specs.Prelude.{◌≡◌};
ghost use Rattle.beacon.specs.CodeTerms.Naming.{reads_dfs, first_dfs, naming_laid};

use crate::HeardDfs;
use answer::Refusal;
use element::ibss_dfs;

// Outside an IBSS element 41 is skipped as any other.
pub fn reads_dfs(ibss: bool, id: u8) -> bool
    ensures { result ≡ reads_dfs ibss id }
{
    ibss && id == ibss_dfs::ID
}

// Its contents, with the pair at an index; `names` says that the beacon has one already, and so this is a repeat.
#[tactic(auto, using(crate::proofs::NamedDfs::kept_fault, crate::proofs::NamedDfs::a_repeat, crate::proofs::NamedDfs::a_first))]
pub fn read_dfs(contents: &[u8], names: bool, index: usize) -> Result<HeardDfs, Refusal>
    ensures { result ≡ naming_laid index (first_dfs names contents.now) }
{
    let dfs = ibss_dfs::read(contents)?;
    if names {
        return Err(Refusal::Repeated);
    }
    let pair = ibss_dfs::pair_at(contents, index);
    Ok(HeardDfs { dfs, pair })
}
