// A table of sixteen stations (document 02, Six) as it is played.
ghost use Rattle.table.specs.Validity.{ValidTable};

use crate::played::{self, Played};
use crate::{AP, frames, kept};
use answer::{Fault, Refusal};
use scene::call::Call;
use scene::page::Page;
use scene::verb::{Form, Reply, Verb};
use scene::{alone, last, made, replies, say};
use std::io::Write;
use table::{Stepped, Table};

// What the station of an address keeps, or that none is joined.
fn row<W: Write>(page: &mut Page<W>, table: Table, own: [u8; 6]) {
    let rows = table.rows;
    match rows.iter().find(|row| row.is_of(own)) {
        None => say::octet(page, Refusal::NotJoined.number()),
        Some(row) => {
            say::number(page, 0);
            kept::all(page, row.station);
        }
    }
}

fn reply<W: Write>(page: &mut Page<W>, table: Table, to: Reply, call: Call) {
    played::reply(page, to, call, |frame: &[u8], buffer: &mut [u8]| match to {
        Reply::Tpc => table.reply_to_tpc_request(frame, replies::report(call), buffer),
        Reply::Measurement => table.reply_to_measurement_request(
            frame,
            call.numbers[4] as usize,
            replies::readings(call),
            buffer,
        ),
    });
}

// The answer of a step, and the table after it.
fn parts(stepped: Stepped) -> (Result<(), Refusal>, Table)
    requires { ValidTable stepped.table }
    ensures { ValidTable result.1 }
{
    (stepped.answer, stepped.table)
}

impl Played for Table {
    ghost valid = { ValidTable };

    fn clock(self) -> u32 {
        self.clock
    }

    fn started(call: Call) -> Result<Table, Refusal> {
        let ap = made::named(call.octets[2], AP[5]);
        Table::start(ap, last::two(call.numbers[1]))
    }

    fn after(self, units: u32) -> (Result<(), Refusal>, Table) {
        parts(self.tick(units))
    }

    fn put(form: Form, call: Call, frame: &mut [u8]) -> usize {
        frames::to_row(form, call, frame)
    }

    fn taking(self, frame: &[u8]) -> (Result<(), Fault>, Table) {
        let taken = self.take(frame);
        (taken.verdict, taken.table)
    }

    fn brought_on(self, call: Call) -> Option<(Result<(), Refusal>, Table)> {
        let own = made::named(call.octets[1], call.octets[2]);
        match call.verb {
            Verb::Join => Some(parts(self.join(own, call.octets[3]))),
            Verb::Leave => Some(parts(self.leave(own))),
            Verb::Tick => Some(self.after(call.first())),
            _ => None,
        }
    }

    fn show<W: Write>(self, page: &mut Page<W>, call: Call) {
        let octets = call.octets;
        match call.verb {
            Verb::Ask => {
                let asked = self.ask(made::named(octets[2], octets[3]), call.first());
                say::octet(page, table::number(asked));
            }
            Verb::Row => row(page, self, made::named(octets[1], octets[2])),
            Verb::Clock => say::number(page, u64::from(self.clock)),
            Verb::Reply(to) => reply(page, self, to, call),
            _ => alone::show(page, call),
        }
    }
}
