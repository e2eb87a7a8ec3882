// A whole element of a beacon or a probe response, by its ID (document 01, "Octets").
ghost use Rattle.std.specs.Prelude.{◌≡◌};
ghost use Rattle.beacon.specs.Beacons.{without_margin, element_means};

use answer::Refusal;
use element::channel_switch::ChannelSwitch;
use element::power_constraint::PowerConstraint;
use element::quiet::Quiet;
use element::tpc_report::TpcReport;
use element::{channel_switch, power_constraint, quiet, tpc_report};

#[derive(Clone, Copy)]
pub enum Element {
    Power(PowerConstraint),
    Report(TpcReport),
    Switch(ChannelSwitch),
    Quiet(Quiet),
    // Any other is skipped.
    Other,
}

// A TPC Report as a beacon or a probe response says it: the margin is set to 0 there, and is ignored (7.3.2.18).
fn without_margin(report: TpcReport) -> TpcReport
    ensures { result ≡ without_margin report }
{
    TpcReport {
        margin: 0,
        ..report
    }
}

#[tactic(auto, unfolding(crate::specs::Beacons::element_means))]
pub fn element_of(id: u8, contents: &[u8], interval: u16) -> Result<Element, Refusal>
    ensures { result ≡ element_means interval id contents.now }
{
    match id {
        power_constraint::ID => Ok(Element::Power(power_constraint::read(contents)?)),
        tpc_report::ID => Ok(Element::Report(without_margin(tpc_report::read(contents)?))),
        channel_switch::ID => Ok(Element::Switch(channel_switch::read(contents)?)),
        quiet::ID => Ok(Element::Quiet(quiet::read(contents, interval)?)),
        _ => Ok(Element::Other),
    }
}
