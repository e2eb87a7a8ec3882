// What a station keeps.
use scene::call::Call;
use scene::page::Page;
use scene::verb::Verb;
use scene::{alone, fields, say};
use station::Station;
use std::io::Write;

// By the verb. One that asks for nothing of a station stands alone.
pub fn show<W: Write>(page: &mut Page<W>, station: Station, call: Call) {
    match call.verb {
        Verb::Channel => say::octet(page, station.channel),
        Verb::Clock => say::number(page, u64::from(station.clock)),
        Verb::Constraint => fields::kept(page, station.power),
        Verb::Pending => fields::pending(page, station.pending),
        _ => alone::show(page, call),
    }
}

pub fn all<W: Write>(page: &mut Page<W>, station: Station) {
    say::number(page, u64::from(station.clock));
    say::octet(page, station.channel);
    fields::kept(page, station.power);
    fields::pending(page, station.pending);
}
