// The DFS owner of an IBSS, as a member follows it (document 02, Five; 802.11h 11.6.7.2).
#![tactic(auto)]

ghost use Rattle.std.specs.Prelude.{◌≡◌, ◌≤◌};
ghost use Rattle.owner.specs.Owners.{unknown, is_owner, named, heard_from, past_tbtts, OwnerFits, KeptFits};

// What is kept of an owner while one is known: its address, after how many misses it is given up, how many there were, and whether a beacon from it was
// accepted since the latest TBTT. At start none is known.
// Kept: `OwnerFits` stands in the contracts: `named` takes an interval of 0 too, and makes an owner
// that does not fit.
#[derive(Clone, Copy)]
pub struct Owner {
    pub address: [u8; 6],
    pub recovery: u8,
    pub misses: u8,
    pub heard: bool,
}

// As at start, and where an owner is given up.
pub fn unknown() -> Option<Owner>
    ensures value { result ≡ unknown }
    ensures fits { KeptFits result }
{
    None
}

// Whether an address is the owner's.
pub fn is_owner(owner: Option<Owner>, address: [u8; 6]) -> bool
    ensures { result ≡ is_owner owner address }
{
    owner.is_some_and(|owner| header::are_same(address, owner.address))
}

// An accepted beacon names an owner and an interval. Another owner than before has missed nothing, and has not been heard.
pub fn named(owner: Option<Owner>, address: [u8; 6], recovery: u8) -> Owner
    ensures value { result ≡ named owner address recovery }
    ensures kept { KeptFits owner → 1 ≤ recovery → OwnerFits result }
{
    match owner {
        Some(owner) if header::are_same(address, owner.address) => Owner { recovery, ..owner },
        _ => Owner {
            address,
            recovery,
            misses: 0,
            heard: false,
        },
    }
}

// A beacon from an address is accepted.
pub fn heard_from(owner: Option<Owner>, address: [u8; 6]) -> Option<Owner>
    ensures value { result ≡ heard_from owner address }
    ensures kept { KeptFits owner → KeptFits result }
{
    let owner = owner?;
    if header::are_same(address, owner.address) {
        return Some(Owner {
            misses: 0,
            heard: true,
            ..owner
        });
    }
    Some(owner)
}

// So many TBTTs pass. They are not gone through one by one: a beacon since the latest one spares the first of them, and each other is a miss.
#[tactic(auto, using(crate::proofs::TbttByTbtt::ways))]
pub fn past(owner: Option<Owner>, tbtts: u32) -> Option<Owner>
    requires { KeptFits owner }
    ensures value { result ≡ past_tbtts tbtts owner }
    ensures kept { KeptFits result }
{
    let owner = owner?;
    if tbtts == 0 {
        return Some(owner);
    }
    let missed = tbtts - u32::from(owner.heard);
    let count = u64::from(owner.misses) + u64::from(missed);
    if u64::from(owner.recovery) <= count {
        return unknown();
    }
    Some(Owner {
        misses: count as u8,
        heard: false,
        ..owner
    })
}
