// Words, numbers and octets on a page.
use crate::page::Page;
use std::io::Write;

// So many octets one after the other that are alike, or more, are told as one of them and how many they are, as in 0*312.
const RUN: usize = 8;

pub fn text<W: Write>(page: &mut Page<W>, word: &[u8]) {
    page.text(word);
}

pub fn number<W: Write>(page: &mut Page<W>, n: u64) {
    text(page, b" ");
    page.decimal(n);
}

pub fn octet<W: Write>(page: &mut Page<W>, o: u8) {
    number(page, u64::from(o));
}

// Octets that are alike.
fn run<W: Write>(page: &mut Page<W>, alike: &[u8]) {
    if alike.len() < RUN {
        for o in alike {
            octet(page, *o);
        }
    } else {
        octet(page, alike[0]);
        text(page, b"*");
        page.decimal(alike.len() as u64);
    }
}

pub fn octets<W: Write>(page: &mut Page<W>, s: &[u8]) {
    for alike in s.chunk_by(|one, next| one == next) {
        run(page, alike);
    }
}

pub fn flag<W: Write>(page: &mut Page<W>, b: bool) {
    number(page, u64::from(b));
}
