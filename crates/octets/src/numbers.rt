// Numbers of two, four and eight octets and addresses, out of a slice and into octets.
ghost use Rattle.std.specs.Prelude.{◌≡◌};
ghost use Rattle.octets.specs.Numbers.{split, octet, octets_from, number};

// The octet at a place; one past the end counts as 0.
pub fn octet_at(octets: &[u8], at: usize) -> u8
    ensures { result ≡ octet at octets.now }
{
    octets.get(at).copied().unwrap_or(0)
}

// So many octets from a place on; those past the end count as 0.
pub fn octets_at<const N: usize>(octets: &[u8], at: usize) -> [u8; N]
    ensures { result ≡ octets_from N at octets.now }
{
    if octets.len() <= at {
        return [0; N];
    }
    let rest = &octets[at..];
    match rest.first_chunk::<N>() {
        Some(whole) => *whole,
        None => {
            let mut padded = [0; N];
            padded[..rest.len()].copy_from_slice(rest);
            padded
        }
    }
}

// The number of two octets from a place on. Kept as one function for each width, as the ones that give octets: they differ in the type of the number,
// and each is one call.
pub fn number16(octets: &[u8], at: usize) -> u16
    ensures { result ≡ number 2 at octets.now }
{
    u16::from_le_bytes(octets_at(octets, at))
}

// The number of four octets from a place on.
pub fn number32(octets: &[u8], at: usize) -> u32
    ensures { result ≡ number 4 at octets.now }
{
    u32::from_le_bytes(octets_at(octets, at))
}

// The number of eight octets from a place on.
pub fn number64(octets: &[u8], at: usize) -> u64
    ensures { result ≡ number 8 at octets.now }
{
    u64::from_le_bytes(octets_at(octets, at))
}

// The six octets of an address from a place on.
pub fn address_at(octets: &[u8], at: usize) -> [u8; 6]
    ensures { result ≡ octets_from 6 at octets.now }
{
    octets_at(octets, at)
}

// A number's two octets.
pub fn octets16(x: u16) -> [u8; 2]
    ensures { result ≡ split 2 x }
{
    u16::to_le_bytes(x)
}

// A number's four octets.
pub fn octets32(x: u32) -> [u8; 4]
    ensures { result ≡ split 4 x }
{
    u32::to_le_bytes(x)
}

// A number's eight octets.
pub fn octets64(x: u64) -> [u8; 8]
    ensures { result ≡ split 8 x }
{
    u64::to_le_bytes(x)
}
