// What stands after the header.
ghost use Rattle.std.specs.Prelude.{◌≡◌};
ghost use Rattle.header.specs.Headers.{body_of};

use crate::management::LENGTH;

// The body of a frame, as a part of it; of one that is shorter than a header, nothing.
pub fn body(frame: &[u8]) -> &[u8]
    ensures { result.now ≡ body_of frame.now }
{
    &frame[LENGTH.min(frame.len())..]
}
