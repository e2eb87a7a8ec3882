// Listing a piece of the file, with its lines written at once.
ghost use Rattle.std.specs.Prelude.{length, IfOk};
ghost use Rattle.capture.specs.Listers.{Fits};
ghost use Rattle.list.specs.Program.{ClosedAs, PieceListed};

use crate::Listed;
use capture::Lister;
use std::io::Write;

// Why a list is cut.
#[derive(Clone, Copy)]
pub enum Cut {
    ReadFailed,
    WriteFailed,
    TooLong,
}

// The blocks of a piece of the file: the lister after them.
pub fn list_blocks<W: Write>(
    to: &mut W,
    lister: Lister,
    piece: &[u8],
    out: &mut [u8],
) -> Result<Lister, Cut>
    requires { Fits lister }
    ensures piece_listed { PieceListed lister piece.now out.old result out.new }
    ensures fits { IfOk result Fits }
{
    let listing = lister.feed_all(piece, out);
    match listing.wrote {
        Err(_) => Err(Cut::TooLong),
        Ok(count) => {
            if to.write_all(&out[..count]).is_err() {
                return Err(Cut::WriteFailed);
            }
            Ok(listing.lister)
        }
    }
}

// The closing line of a whole list. One that did not come to its end has too many blocks.
pub fn close<W: Write>(to: &mut W, listed: Result<Listed, Cut>) -> Result<(), Cut>
    ensures { ClosedAs listed result }
{
    match listed? {
        Listed::More(_) => Err(Cut::TooLong),
        Listed::Last(lister) => {
            let text = lister.closing();
            to.write_all(&text.bytes[..text.count])
                .map_err(|_| Cut::WriteFailed)
        }
    }
}
