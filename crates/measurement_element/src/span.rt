// Where and when something is or was measured: what requests and reports of types 0 to 2 begin with.
ghost use Rattle.std.specs.Prelude.{◌≡◌};
ghost use Rattle.measurement_element.specs.Span.{span_in, span_forbids, span_octets, no_span};

// The channel, the start in µs of the timing synchronization function, and the duration in TU.
#[derive(Clone, Copy)]
pub struct Span {
    pub channel: u8,
    pub start: u64,
    pub duration: u16,
}

impl Span {
    // No measurement at all.
    pub fn none() -> Span
        ensures { result ≡ no_span }
    {
        Span {
            channel: 0,
            start: 0,
            duration: 0,
        }
    }

    // Channel, start and duration.
    // Kept as one literal, in the order of the octets: by slices each number would need its place.
    pub fn to_octets(self) -> [u8; 11]
        ensures { result ≡ span_octets self }
    {
        let s = octets::octets64(self.start);
        let d = octets::octets16(self.duration);
        [
            self.channel,
            s[0],
            s[1],
            s[2],
            s[3],
            s[4],
            s[5],
            s[6],
            s[7],
            d[0],
            d[1],
        ]
    }

    // The span after the token, the mode and the type.
    pub(crate) fn read(contents: &[u8]) -> Span
        ensures { result ≡ span_in contents.now }
    {
        Span {
            channel: octets::octet_at(contents, 3),
            start: octets::number64(contents, 4),
            duration: octets::number16(contents, 12),
        }
    }

    // The channel is over 200: there is none.
    pub(crate) fn is_forbidden(self) -> bool
        ensures { result ≡ span_forbids self }
    {
        channel::HIGHEST < self.channel
    }
}
