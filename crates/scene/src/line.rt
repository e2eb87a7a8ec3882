// A line as it is read, character by character.
ghost use Rattle.std.specs.Prelude.{◌<◌, ◌≤◌, length};

use crate::call::{Call, ROOM, WHOLE};
use crate::page::Page;
use crate::word::Word;
use crate::{last, say};
use std::io::Write;

// Which part of a line the next character belongs to.
// Kept: a line is read in pieces, so what comes next in it has to be kept.
#[derive(Clone, Copy, PartialEq, Eq)]
pub enum Part {
    Remark,
    // Its word, and of a scene the word that says what it plays.
    Verb,
    Numbers,
    // After the =. It is not looked at: the program writes what it finds.
    Expected,
}

// Where in the line the next character stands, and the call so far.
#[derive(Clone, Copy)]
pub struct Line {
    part: Part,
    word: Word,
    // Its verb, and whether an answer is expected, are set at its end.
    call: Call,
    // The place of the number that the next digit belongs to, and what its digits make so far.
    at: usize,
    number: u64,
    // Whether a number found no place.
    spilled: bool,
}

// How far a text was read: to its end, or past the = or the end of the line with which a call ends.
#[derive(Clone, Copy)]
pub struct Read {
    pub at: usize,
    pub call: Option<Call>,
}

pub fn begun() -> Line {
    Line {
        part: Part::Verb,
        word: Word::EMPTY,
        call: Call::EMPTY,
        at: Call::EMPTY.count,
        number: 0,
        spilled: false,
    }
}

impl Line {
    // Whether a call stands here that this character ends.
    fn ends_at(&self, c: u8) -> bool {
        !self.word.is_empty()
            && matches!(self.part, Part::Verb | Part::Numbers)
            && matches!(c, b'=' | b'\n')
    }

    // A number keeps its last digits where it has too many.
    fn digit(&mut self, digit: u8) {
        let place = self.at;
        if ROOM <= place {
            self.spilled = true;
            return;
        }
        let number = self.number % 1000000000000000000 * 10 + u64::from(digit);
        self.number = number;
        self.call.count = place + 1;
        self.call.octets[place] = last::one(number);
        if place < WHOLE {
            self.call.numbers[place] = number;
        }
    }

    // Whatever is no digit only names the numbers and parts them.
    fn among_numbers(&mut self, c: u8) {
        match c {
            b'0'..=b'9' => self.digit(c - b'0'),
            _ => {
                self.at = self.call.count;
                self.number = 0;
            }
        }
    }

    fn in_verb(&mut self, c: u8) {
        if c == b'#' && self.word.is_empty() {
            self.part = Part::Remark;
        } else if c == b' ' && !self.word.opens_scene() {
            self.part = Part::Numbers;
        } else {
            self.word.push(c);
        }
    }

    fn take(&mut self, c: u8) {
        if c == b'\n' {
            *self = begun();
            return;
        }
        match self.part {
            Part::Verb => self.in_verb(c),
            Part::Numbers => self.among_numbers(c),
            Part::Remark | Part::Expected => {}
        }
    }

    // The call at its end. A number that found no place must not go by unseen.
    fn ended<W: Write>(&self, page: &mut Page<W>, expected: bool) -> Call {
        if expected {
            say::text(page, b"=");
        }
        if self.spilled {
            say::text(page, b" too long");
        }
        Call {
            verb: self.word.verb(),
            expected,
            ..self.call
        }
    }

    // Reads on from a place in the text, and writes again what it reads. What is expected is passed over, up to the end of its line.
    pub fn read<W: Write>(&mut self, page: &mut Page<W>, text: &[u8], from: usize) -> Read
        requires { from < length text.now }
        ensures { (from < result.at) × (result.at ≤ length text.now) }
    {
        let mut written = from;
        for at in from..text.len() {
            let c = text[at];
            if self.ends_at(c) {
                say::text(page, &text[written..at]);
                let call = self.ended(page, c == b'=');
                return Read {
                    at: at + 1,
                    call: Some(call),
                };
            }
            if self.part == Part::Expected && c != b'\n' {
                written = at + 1;
            }
            self.take(c);
        }
        say::text(page, &text[written..]);
        Read {
            at: text.len(),
            call: None,
        }
    }

    // Goes on after its call: what is expected follows, or the end of the line, which is written after what was told.
    pub fn after_call<W: Write>(&mut self, page: &mut Page<W>, expected: bool) {
        if expected {
            self.part = Part::Expected;
        } else {
            say::text(page, b"\n");
            *self = begun();
        }
    }
}
