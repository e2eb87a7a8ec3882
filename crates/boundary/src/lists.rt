// The evening list of a whole capture in memory (document 01, "Capture blocks and the evening list").
ghost use Rattle.std.specs.Prelude.{true};
ghost use Rattle.capture.specs.Lists.{list_of};
ghost use Rattle.boundary.specs.Codes.{Put};

use crate::{codes, whole};

#[unsafe(no_mangle)]
pub extern "C" fn oneiralth_list(capture: &[u8], out: &mut [u8]) -> u64
    ensures { Put true (list_of capture.now) 0 out.old result out.new }
{
    codes::wrote(whole::list(capture, out))
}
