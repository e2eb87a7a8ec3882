// The word that a line begins with, letter by letter.
use crate::verb;
use crate::verb::Verb;

// The longest verb has 17 letters.
const ROOM: usize = 17;

// Letters that find no room are counted too.
// Kept as an array and a count: there is no heap.
#[derive(Clone, Copy)]
pub struct Word {
    letters: [u8; ROOM],
    count: usize,
}

impl Word {
    pub const EMPTY: Word = Word {
        letters: [0; ROOM],
        count: 0,
    };

    pub fn is_empty(&self) -> bool {
        self.count == 0
    }

    pub fn push(&mut self, letter: u8) {
        if self.count < ROOM {
            self.letters[self.count] = letter;
        }
        self.count = self.count.saturating_add(1);
    }

    // Whether another word, which says what the scene plays, belongs to it.
    pub fn opens_scene(&self) -> bool {
        self.count == 5 && self.letters.starts_with(b"scene")
    }

    // A word that is too long is none.
    pub fn verb(&self) -> Verb {
        self.letters
            .get(..self.count)
            .map_or(Verb::Unknown, verb::verb_of)
    }
}
