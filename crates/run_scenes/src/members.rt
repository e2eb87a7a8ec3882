// A station of an IBSS (document 02, Five) as it is played.
ghost use Rattle.member.specs.Validity.{ValidMember};

use crate::played::Played;
use crate::{AP, OWN, frames, kept};
use answer::{Fault, Refusal};
use member::Member;
use owner::Owner;
use scene::call::Call;
use scene::page::Page;
use scene::verb::{Form, Verb};
use scene::{last, made, say};
use std::io::Write;

fn owner<W: Write>(page: &mut Page<W>, owner: Option<Owner>) {
    match owner {
        None => say::number(page, 0),
        Some(owner) => {
            say::octets(page, &owner.address);
            say::octet(page, owner.recovery);
            say::octet(page, owner.misses);
            say::flag(page, owner.heard);
        }
    }
}

impl Played for Member {
    ghost valid = { ValidMember };

    fn clock(self) -> u32 {
        self.station.clock
    }

    fn started(call: Call) -> Result<Member, Refusal> {
        let own = made::named(call.octets[2], OWN[5]);
        let bssid = made::named(call.octets[3], AP[5]);
        Member::start(own, bssid, last::two(call.numbers[1]), call.octets[4])
    }

    fn after(self, units: u32) -> (Result<(), Refusal>, Member) {
        let stepped = self.advance(units);
        (stepped.answer, stepped.member)
    }

    fn put(form: Form, call: Call, frame: &mut [u8]) -> usize {
        frames::of_member(form, call, 1, frame)
    }

    fn taking(self, frame: &[u8]) -> (Result<(), Fault>, Member) {
        let taken = self.take(frame);
        (taken.verdict, taken.member)
    }

    fn brought_on(self, call: Call) -> Option<(Result<(), Refusal>, Member)> {
        match call.verb {
            Verb::Advance => Some(self.after(call.first())),
            _ => None,
        }
    }

    fn show<W: Write>(self, page: &mut Page<W>, call: Call) {
        match call.verb {
            Verb::Ask => say::octet(page, self.ask(call.first()).number()),
            Verb::Read(form) => frames::read_in_ibss(page, form, call),
            Verb::Pair => frames::pair(page, call),
            Verb::Owner => owner(page, self.owner),
            _ => kept::show(page, self.station, call),
        }
    }
}
