// A call that asks for nothing that is played: an element that is read or written, or a number. A verb that there is not, or not in such a scene, must not go
// by unseen.
use crate::call::Call;
use crate::page::Page;
use crate::verb::Verb;
use crate::{last, numbers, reads, say, writes};
use std::io::Write;

pub fn show<W: Write>(page: &mut Page<W>, call: Call) {
    let o = call.octets;
    let n = call.numbers;
    match call.verb {
        Verb::Contents => reads::show(page, o[1], last::two(n[2]), call.octets_from(3)),
        Verb::Write => writes::show(page, call),
        Verb::Centre => numbers::centre(page, o[1]),
        Verb::Signed => numbers::signed(page, o[1]),
        Verb::Busy => numbers::busy(page, last::four(n[1]), last::two(n[2])),
        Verb::Densities => numbers::densities(
            page,
            last::four(n[1]),
            last::four(n[2]),
            last::two(n[3]),
        ),
        _ => say::text(page, b" unknown"),
    }
}
