// Element 34, TPC Request (7.3.2.17).
ghost use Rattle.std.specs.Prelude.{◌≡◌, true};
ghost use Rattle.octets.specs.Writing.{Written};
ghost use Rattle.element.specs.TpcRequest.{tpc_request_means, tpc_request_octets};

use answer::Refusal;

pub const ID: u8 = 34;

#[tactic(auto, unfolding(crate::specs::TpcRequest::tpc_request_means, octets::specs::Elements::fixed, answer::specs::Checks::checked))]
pub fn read(contents: &[u8]) -> Result<(), Refusal>
    ensures { result ≡ tpc_request_means contents.now }
{
    if !contents.is_empty() {
        return Err(Refusal::WrongLength);
    }
    Ok(())
}

#[tactic(auto, unfolding(crate::specs::TpcRequest::tpc_request_octets))]
pub fn write(buffer: &mut [u8], at: usize) -> Result<usize, Refusal>
    ensures { Written true tpc_request_octets at buffer.old result buffer.new }
{
    let element = [ID, 0];
    octets::put(true, &element, buffer, at)
}
