// A Quiet element of a beacon or a probe response (document 01, "Octets"), read at a look: in a frame they stand one after the other, and the way
// of any other element is longer.
ghost use Rattle.beacon.specs.CodeTerms.Quieting.{QuietAt};

use crate::QUIETS;
use element::quiet;
use element::quiet::Quiet;

// How many octets a Quiet element has: its ID 40, its length 6 and its contents.
pub const LENGTH: usize = 8;

// Its ID and its length as one number, of which the ID is the low octet: 40 + 256 * 6.
const HEADER: u16 = 1576;

// The Quiet element at a place, where so many slots are in use: one that is whole, says what it may say and finds a slot.
pub fn quiet_at(body: &[u8], at: usize, count: usize, interval: u16) -> Option<Quiet>
    ensures { QuietAt body.now at count interval result }
{
    if QUIETS <= count || body.len() < LENGTH || body.len() - LENGTH < at {
        return None;
    }
    if octets::number16(body, at) != HEADER {
        return None;
    }
    let start = at + 2;
    let end = at + LENGTH;
    quiet::read(&body[start..end], interval).ok()
}
