// The two kinds of measurement body: one or more elements 38, of which no two have one token (802.11h 7.4.1.1), or one or more
// elements 39 (7.4.1.2).
ghost use Rattle.std.specs.Prelude.{◌≡◌};
ghost use Rattle.measurement_body.specs.Kinds.{sort_of};

use measurement_element::{measurement_report, measurement_request};

// Kept as an enum: what `survey` promises says `sort_of` of it.
#[derive(Clone, Copy)]
pub enum Kind {
    Requests,
    Reports,
}

impl Kind {
    // The ID of its elements.
    pub fn id(self) -> u8
        ensures { result ≡ (sort_of self).id }
    {
        match self {
            Kind::Requests => measurement_request::ID,
            Kind::Reports => measurement_report::ID,
        }
    }

    // The action of its bodies.
    pub fn action(self) -> u8
        ensures { result ≡ (sort_of self).action }
    {
        match self {
            Kind::Requests => 0,
            Kind::Reports => 1,
        }
    }

    // Whether no two of its elements may have one token.
    pub fn has_tokens_once(self) -> bool
        ensures { result ≡ (sort_of self).once }
    {
        matches!(self, Kind::Requests)
    }
}
