// The words of the list.
ghost use Rattle.std.specs.Prelude.{◌≡◌};
ghost use Rattle.pen.specs.Lines.{spelled};

// A record's kind, a malformed record, or a damaged block.
#[derive(Clone, Copy)]
pub enum Word {
    Start,
    Advance,
    Frame,
    Ask,
    Record,
    Block,
}

impl Word {
    pub fn letters(self) -> &'static [u8]
        ensures { result.now ≡ spelled self }
    {
        match self {
            Word::Start => b"start",
            Word::Advance => b"advance",
            Word::Frame => b"frame",
            Word::Ask => b"ask",
            Word::Record => b"record",
            Word::Block => b"block",
        }
    }
}
