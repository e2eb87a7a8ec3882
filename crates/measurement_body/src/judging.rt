// What the contents of one element come to, by the kind of its body.
ghost use Rattle.std.specs.Prelude.{◌≡◌};
ghost use Rattle.measurement_body.specs.CodeTerms.Judging.{judgement};
ghost use Rattle.measurement_body.specs.Kinds.{sort_of};

use crate::kinds::Kind;
use answer::Refusal;
use measurement_element::{measurement_report, measurement_request};

// An element's token, and whether it is plain: interpreted, and no reserved bit set.
#[derive(Clone, Copy)]
pub struct Judged {
    pub token: u8,
    pub plain: bool,
}

// Contents of an element of this kind.
pub fn judge(kind: Kind, contents: &[u8]) -> Result<Judged, Refusal>
    ensures { result ≡ judgement (sort_of kind) contents.now }
{
    match kind {
        Kind::Requests => {
            let request = measurement_request::read(contents)?;
            let plain = measurement_request::is_clear(contents)
                && measurement_request::is_interpreted(request);
            Ok(Judged {
                token: request.token,
                plain,
            })
        }
        Kind::Reports => {
            let report = measurement_report::read(contents)?;
            let plain = measurement_report::is_clear(contents)
                && measurement_report::is_interpreted(report);
            Ok(Judged {
                token: report.token,
                plain,
            })
        }
    }
}
