// Writers of the bodies of one element.
ghost use Rattle.std.specs.Prelude.{true, not, eqb};
ghost use Rattle.element.specs.ChannelSwitch.{switch_may};
ghost use Rattle.octets.specs.Writing.{Written};
ghost use Rattle.single_body.specs.Singles.{tpc_request_body, tpc_report_body, switch_body};

use answer::Refusal;
use element::channel_switch::ChannelSwitch;
use element::tpc_report::TpcReport;
use element::{channel_switch, tpc_report, tpc_request};

// The body of a TPC Request frame from a place on; token 0 is refused.
pub fn write_tpc_request(token: u8, buffer: &mut [u8], at: usize) -> Result<usize, Refusal>
    ensures { Written (not (eqb token 0)) (tpc_request_body token) at buffer.old result buffer.new }
{
    let body = [0, 2, token, tpc_request::ID, 0];
    octets::put(token != 0, &body, buffer, at)
}

// The body of a TPC Report frame from a place on.
#[tactic(auto, unfolding(element::specs::TpcReport::tpc_report_octets))]
pub fn write_tpc_report(
    token: u8,
    report: TpcReport,
    buffer: &mut [u8],
    at: usize,
) -> Result<usize, Refusal>
    ensures { Written true (tpc_report_body token report) at buffer.old result buffer.new }
{
    let body = [
        0,
        3,
        token,
        tpc_report::ID,
        2,
        octets::from_signed(report.power),
        octets::from_signed(report.margin),
    ];
    octets::put(true, &body, buffer, at)
}

// The body of a Channel Switch Announcement frame from a place on.
#[tactic(auto, unfolding(element::specs::ChannelSwitch::switch_octets))]
pub fn write_channel_switch(
    switch: ChannelSwitch,
    buffer: &mut [u8],
    at: usize,
) -> Result<usize, Refusal>
    ensures { Written (switch_may switch) (switch_body switch) at buffer.old result buffer.new }
{
    let body = [
        0,
        4,
        channel_switch::ID,
        3,
        switch.mode,
        switch.channel,
        switch.count,
    ];
    octets::put(channel_switch::may_write(switch), &body, buffer, at)
}
