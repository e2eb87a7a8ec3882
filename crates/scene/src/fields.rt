// The fields of each element, and of what a beacon holds.
use crate::page::Page;
use crate::say;
use beacon::{Notice, QUIETS};
use element::channel_switch::ChannelSwitch;
use element::ibss_dfs::IbssDfs;
use element::power_constraint::PowerConstraint;
use element::quiet::Quiet;
use element::tpc_report::TpcReport;
use measurement_element::measurement_report::{Reason, Report};
use measurement_element::measurement_request::Request;
use measurement_element::{Found, Span, measurement_report, measurement_request};
use pending::Switch;
use std::io::Write;

pub fn power<W: Write>(page: &mut Page<W>, p: PowerConstraint) {
    say::text(page, b" constraint");
    say::octet(page, p.decibels);
}

// The constraint that a station keeps.
pub fn kept<W: Write>(page: &mut Page<W>, power: Option<PowerConstraint>) {
    match power {
        None => say::text(page, b" none"),
        Some(constraint) => say::octet(page, constraint.decibels),
    }
}

// The switch that a station awaits: 0, or its moment, mode and channel.
pub fn pending<W: Write>(page: &mut Page<W>, pending: Option<Switch>) {
    match pending {
        None => say::number(page, 0),
        Some(switch) => {
            say::number(page, switch.at);
            say::octet(page, switch.mode);
            say::octet(page, switch.channel);
        }
    }
}

// The signed numbers as the octets that hold them.
pub fn report<W: Write>(page: &mut Page<W>, t: TpcReport) {
    say::text(page, b" report");
    say::octet(page, octets::from_signed(t.power));
    say::octet(page, octets::from_signed(t.margin));
}

pub fn switch<W: Write>(page: &mut Page<W>, s: ChannelSwitch) {
    say::text(page, b" switch");
    say::octet(page, s.mode);
    say::octet(page, s.channel);
    say::octet(page, s.count);
}

pub fn quiet<W: Write>(page: &mut Page<W>, q: Quiet) {
    say::text(page, b" quiet");
    say::octet(page, q.count);
    say::octet(page, q.period);
    say::number(page, u64::from(q.duration));
    say::number(page, u64::from(q.offset));
}

// Of the pairs how many there are.
pub fn dfs<W: Write>(page: &mut Page<W>, d: IbssDfs) {
    say::text(page, b" dfs");
    say::octets(page, &d.owner);
    say::octet(page, d.recovery);
    say::number(page, d.pairs as u64);
}

// The first of them, as many as the count says.
pub fn quiets<W: Write>(page: &mut Page<W>, slots: [Quiet; QUIETS], count: usize) {
    for slot in slots.iter().take(count) {
        quiet(page, *slot);
    }
}

pub fn notice<W: Write>(page: &mut Page<W>, n: Notice) {
    say::number(page, n.timestamp);
    say::number(page, u64::from(n.capability));
    if let Some(p) = n.power {
        power(page, p);
    }
    if let Some(t) = n.report {
        report(page, t);
    }
    if let Some(s) = n.switch {
        switch(page, s);
    }
}

fn span<W: Write>(page: &mut Page<W>, s: Span) {
    say::octet(page, s.channel);
    say::number(page, s.start);
    say::number(page, u64::from(s.duration));
}

pub fn asked<W: Write>(page: &mut Page<W>, r: Request) {
    say::octet(page, r.token);
    say::octet(page, r.kind);
    match r.matter {
        measurement_request::Matter::Enable { request, report } => {
            say::text(page, b" enable");
            say::flag(page, request);
            say::flag(page, report);
        }
        measurement_request::Matter::Measure(s) => {
            say::text(page, b" measure");
            span(page, s);
        }
        measurement_request::Matter::Uninterpreted => say::text(page, b" uninterpreted"),
    }
}

fn not_measured<W: Write>(page: &mut Page<W>, reason: Reason) {
    match reason {
        Reason::Late => say::text(page, b" late"),
        Reason::Incapable => say::text(page, b" incapable"),
        Reason::Refused => say::text(page, b" refused"),
    }
}

fn measured<W: Write>(page: &mut Page<W>, s: Span, found: Found) {
    match found {
        Found::Map(map) => {
            say::text(page, b" basic");
            span(page, s);
            say::octet(page, map);
        }
        Found::Busy(busy) => {
            say::text(page, b" cca");
            span(page, s);
            say::octet(page, busy);
        }
        Found::Densities => {
            say::text(page, b" rpi");
            span(page, s);
        }
    }
}

pub fn reported<W: Write>(page: &mut Page<W>, r: Report) {
    say::octet(page, r.token);
    say::octet(page, r.kind);
    match r.matter {
        measurement_report::Matter::NotMeasured(reason) => not_measured(page, reason),
        measurement_report::Matter::Measured { span, found } => measured(page, span, found),
        measurement_report::Matter::Uninterpreted => say::text(page, b" uninterpreted"),
    }
    say::octets(page, &r.densities);
}
