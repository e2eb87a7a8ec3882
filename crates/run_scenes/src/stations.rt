// Document 01's station as it is played.
ghost use Rattle.station.specs.Validity.{Valid};

use crate::played::{self, Played};
use crate::{AP, OWN, frames, kept};
use answer::{Fault, Refusal};
use scene::call::Call;
use scene::page::Page;
use scene::verb::{Form, Reply, Verb};
use scene::{last, made, replies, say};
use station::Station;
use std::io::Write;

// A reply is asked for without a station.
fn reply<W: Write>(page: &mut Page<W>, to: Reply, call: Call) {
    played::reply(page, to, call, |frame: &[u8], buffer: &mut [u8]| match to {
        Reply::Tpc => reply::to_tpc_request(frame, OWN, AP, replies::report(call), buffer),
        Reply::Measurement => reply::to_measurement_request(
            frame,
            OWN,
            AP,
            last::four(call.numbers[3]),
            call.numbers[4] as usize,
            replies::readings(call),
            buffer,
        ),
    });
}

impl Played for Station {
    ghost valid = { Valid };

    fn clock(self) -> u32 {
        self.clock
    }

    fn started(call: Call) -> Result<Station, Refusal> {
        let own = made::named(call.octets[2], OWN[5]);
        let ap = made::named(call.octets[3], AP[5]);
        Station::start(own, ap, last::two(call.numbers[1]), call.octets[4])
    }

    fn after(self, units: u32) -> (Result<(), Refusal>, Station) {
        let stepped = self.advance(units);
        (stepped.answer, stepped.station)
    }

    fn put(form: Form, call: Call, frame: &mut [u8]) -> usize {
        frames::of_ap(form, call, frame)
    }

    fn taking(self, frame: &[u8]) -> (Result<(), Fault>, Station) {
        let taken = self.take(frame);
        (taken.verdict, taken.station)
    }

    fn brought_on(self, call: Call) -> Option<(Result<(), Refusal>, Station)> {
        match call.verb {
            Verb::Advance => Some(self.after(call.first())),
            _ => None,
        }
    }

    fn show<W: Write>(self, page: &mut Page<W>, call: Call) {
        match call.verb {
            Verb::Ask => say::octet(page, self.ask(call.first()).number()),
            Verb::Read(form) => frames::read(page, form, call),
            Verb::Reply(to) => reply(page, to, call),
            _ => kept::show(page, self, call),
        }
    }
}
