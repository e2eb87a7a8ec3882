// The element of a body that has one, of each kind by the same steps: the element that has to be there, what it says, and nothing after it but vendors'
// elements.
ghost use Rattle.std.specs.Prelude.{◌≡◌, drop};
ghost use Rattle.walk.specs.Handed.{handed_in};
ghost use Rattle.single_body.specs.Kinds.{contents_mean, id_of, fields_before};
ghost use Rattle.single_body.specs.Singles.{single};

use crate::kinds::{Kind, Single};
use answer::{Fault, Refusal};
use element::{channel_switch, tpc_report, tpc_request};

// What the contents of the element say.
fn read_contents(kind: Kind, contents: &[u8]) -> Result<Single, Refusal>
    ensures { result ≡ contents_mean kind contents.now }
{
    match kind {
        Kind::TpcRequest => tpc_request::read(contents).map(|()| Single::TpcRequest),
        Kind::TpcReport => tpc_report::read(contents).map(Single::TpcReport),
        Kind::ChannelSwitch => channel_switch::read(contents).map(Single::ChannelSwitch),
    }
}

// The one element of a body, after its fixed fields. A fault of the element is at its ID.
#[tactic(auto, unfolding(crate::specs::Singles::single))]
pub fn read(body: &[u8], kind: Kind) -> Result<Single, Fault>
    ensures { result ≡ single (fields_before kind) (id_of kind) (contents_mean kind) (handed_in (drop (fields_before kind) body.now)) }
{
    let at = kind.fixed_fields();
    let at_element = |refusal| Fault::at(refusal, at);
    let contents = walk::required_at(body, at, kind.id()).map_err(at_element)?;
    let said = read_contents(kind, &body[contents.start..contents.end]).map_err(at_element)?;
    let next = walk::pass_over(body, contents.end)?;
    if walk::has_left_over(body, next) {
        return Err(Fault::at(Refusal::LeftOver, next));
    }
    Ok(said)
}
