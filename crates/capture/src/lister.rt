// What the lister keeps from block to block.
ghost use Rattle.std.specs.Prelude.{◌≡◌};
ghost use Rattle.pen.specs.Rooms.{fronted};
ghost use Rattle.capture.specs.Listers.{fresh, Fits};
ghost use Rattle.capture.specs.Lists.{closing_for};

use pen::Text;
use station::Station;

// Kept: `Fits` and `Sound` stand in the contracts, as `Valid` does for a station: the fields are public.
#[derive(Clone, Copy)]
pub struct Lister {
    // Lines so far, blocks, and damaged blocks among them.
    pub lines: u64,
    pub blocks: u64,
    pub damaged: u64,
    // Whether a station is followed; where none is, `station` is one fixed station that no call may be handed.
    // Kept as a flag beside it: while blocks are listed the station lies in parts, of which an Option would hold only one.
    pub active: bool,
    pub station: Station,
}

impl Lister {
    // How many blocks may be listed: a file of so many would have 2 to the 64 octets.
    pub const BLOCK_LIMIT: u64 = 36028797018963968;

    // A block has at most so many lines, each of which takes three octets of its payload.
    const MOST_LINES: usize = 171;

    // The room that the lines of a block always find.
    pub const ROOM: usize = Lister::MOST_LINES * Text::ROOM;

    // A lister that has seen nothing.
    pub fn fresh() -> Lister
        ensures value { result ≡ fresh }
        ensures fits { Fits result }
    {
        Lister {
            lines: 0,
            blocks: 0,
            damaged: 0,
            active: false,
            station: Station::nobody(),
        }
    }

    // The closing line of the list.
    pub fn closing(self) -> Text
        ensures { result ≡ fronted (closing_for self) }
    {
        pen::closing(self.blocks, self.damaged)
    }
}
