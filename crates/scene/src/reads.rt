// The contents of an element as they are read: the answer's number, then the fields.
use crate::answers::given;
use crate::page::Page;
use crate::{answers, fields, say};
use answer::Refusal;
use element::{channel_switch, power_constraint, quiet, tpc_report, tpc_request};
use measurement_element::measurement_report::{Matter, Report};
use measurement_element::{measurement_report, measurement_request};
use std::io::Write;

// What is told of a report beside a refusal.
const NO_REPORT: Report = Report {
    token: 0,
    kind: 0,
    matter: Matter::Uninterpreted,
    densities: [0; 8],
};

fn report<W: Write>(page: &mut Page<W>, reading: Result<Report, Refusal>) {
    answers::tell(page, reading, true);
    fields::reported(page, reading.unwrap_or(NO_REPORT));
}

// An element by its ID. One that there is not must not go by unseen.
pub fn show<W: Write>(page: &mut Page<W>, id: u8, interval: u16, contents: &[u8]) {
    match id {
        power_constraint::ID => given(page, power_constraint::read(contents), fields::power),
        tpc_request::ID => answers::tell(page, tpc_request::read(contents), true),
        tpc_report::ID => given(page, tpc_report::read(contents), fields::report),
        channel_switch::ID => given(page, channel_switch::read(contents), fields::switch),
        measurement_request::ID => given(page, measurement_request::read(contents), fields::asked),
        measurement_report::ID => report(page, measurement_report::read(contents)),
        quiet::ID => given(page, quiet::read(contents, interval), fields::quiet),
        _ => say::text(page, b" unknown"),
    }
}
