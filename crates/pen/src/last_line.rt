// The closing line of the list (document 01, "Capture blocks and the evening list").
ghost use Rattle.std.specs.Prelude.{◌≡◌};
ghost use Rattle.pen.specs.Lines.{closing_of};
ghost use Rattle.pen.specs.Rooms.{fronted};

use crate::putting;

// The text is the first `count` octets; those after it are 0. Its length differs from call to call, and there is no heap.
#[derive(Clone, Copy)]
pub struct Text {
    pub bytes: [u8; Text::ROOM],
    pub count: usize,
}

impl Text {
    // More than the longest line has.
    pub const ROOM: usize = 64;
}

// The last line: how many blocks there were, and how many of them were damaged.
pub fn closing(blocks: u64, damaged: u64) -> Text
    ensures { result ≡ fronted (closing_of blocks damaged) }
{
    let mut bytes = [0; Text::ROOM];
    let named = putting::put(b"blocks ", &mut bytes, 0);
    let counted = putting::put_number(blocks, &mut bytes, named);
    let parted = putting::put(b" damaged ", &mut bytes, counted);
    let told = putting::put_number(damaged, &mut bytes, parted);
    let count = putting::put(b"\n", &mut bytes, told);
    Text { bytes, count }
}
