// A call of a scene: its verb and its numbers.
ghost use Rattle.std.specs.Prelude.{◌≤◌, length};

use crate::page::Page;
use crate::verb::Verb;
use crate::{last, say};
use element::tpc_report::TpcReport;
use std::io::Write;

// How many numbers a call may have, with place 0, which is the verb's, and how many of them are kept whole.
pub const ROOM: usize = 128;

pub const WHOLE: usize = 16;

// Kept: the octets beside the numbers, since they are lent as slices, which numbers are not; and a
// count, since there is no heap.
#[derive(Clone, Copy)]
pub struct Call {
    pub verb: Verb,
    // How many places are taken, each number as its last octet, and the first of them whole too. Those that are left out are 0.
    pub count: usize,
    pub octets: [u8; ROOM],
    pub numbers: [u64; WHOLE],
    // Whether an answer is expected, which is told then. Of a call that only makes the scene ready nothing is told unless it is refused.
    pub expected: bool,
}

impl Call {
    // No number is there yet.
    pub const EMPTY: Call = Call {
        verb: Verb::Unknown,
        count: 1,
        octets: [0; ROOM],
        numbers: [0; WHOLE],
        expected: false,
    };

    // Its first number, as a moment or units.
    pub fn first(&self) -> u32 {
        last::four(self.numbers[1])
    }

    // How many units lead from a clock to the moment that is its first number. None lead to one that is gone.
    pub fn units_from<W: Write>(&self, page: &mut Page<W>, clock: u32) -> u32 {
        let moment = self.first();
        if moment < clock {
            say::text(page, b" gone");
            return 0;
        }
        moment - clock
    }

    // Its octets from a place on.
    pub fn octets_from(&self, place: usize) -> &[u8]
        requires { place ≤ 128 }
        ensures { length result.now ≤ 128 }
    {
        let end = self.count.clamp(place, ROOM);
        &self.octets[place..end]
    }

    // Power and margin of a TPC Report, from a place on.
    pub fn tpc_report(&self, place: usize) -> TpcReport
        requires { place ≤ 126 }
    {
        TpcReport {
            power: octets::to_signed(self.octets[place]),
            margin: octets::to_signed(self.octets[place + 1]),
        }
    }
}
