// Element 35, TPC Report (7.3.2.18).
ghost use Rattle.std.specs.Prelude.{◌≡◌};
ghost use Rattle.octets.specs.Writing.{Written};
ghost use Rattle.element.specs.TpcReport.{tpc_report_means, tpc_report_may, tpc_report_octets};

use answer::Refusal;

pub const ID: u8 = 35;

// Power in dBm and link margin in dB, both signed.
#[derive(Clone, Copy)]
pub struct TpcReport {
    pub power: i8,
    pub margin: i8,
}

#[tactic(auto, unfolding(crate::specs::TpcReport::tpc_report_means, octets::specs::Elements::fixed, answer::specs::Checks::checked))]
pub fn read(contents: &[u8]) -> Result<TpcReport, Refusal>
    ensures { result ≡ tpc_report_means contents.now }
{
    if contents.len() != 2 {
        return Err(Refusal::WrongLength);
    }
    let power = octets::to_signed(contents[0]);
    let margin = octets::to_signed(contents[1]);
    Ok(TpcReport { power, margin })
}

#[tactic(auto, unfolding(crate::specs::TpcReport::tpc_report_octets))]
pub fn write(report: TpcReport, buffer: &mut [u8], at: usize) -> Result<usize, Refusal>
    ensures { Written (tpc_report_may report) (tpc_report_octets report) at buffer.old result buffer.new }
{
    let element = [
        ID,
        2,
        octets::from_signed(report.power),
        octets::from_signed(report.margin),
    ];
    octets::put(true, &element, buffer, at)
}
