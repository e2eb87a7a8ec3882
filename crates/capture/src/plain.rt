// The records that ask no more of a station than its clock and its pending switch: advances that reach no switch, and questions that are known to be
// granted. Most records are such, and a lister is long to copy.
ghost use Rattle.std.specs.Prelude.{◌+◌, ◌-◌, ◌*◌, ◌≤◌, length, ◌≡◌};
ghost use Rattle.pen.specs.Numerals.{Spells};
ghost use Rattle.pen.specs.Rooms.{line_room};
ghost use Rattle.station.specs.Clock.{clock_advance};
ghost use Rattle.capture.specs.CodeTerms.Plain.{known_granted, goes_to, lines_left, PlainAt, RanFrom};
ghost use Rattle.capture.specs.Listers.{line_limit};

use capture_record::{Entry, Found};
use pen::{Pen, Word};
use pending::Switch;
use station::Advanced;

// What stands at a place of the used part: an advance to a moment, a question that is granted, each with the place where it ends, or another record
// or none.
// Kept as an enum of its own: three cases of which two have values, where an Option would hold another enum.
#[derive(Clone, Copy)]
pub enum Plain {
    Goes { clock: u32, end: usize },
    Granted { end: usize },
    Other,
}

// Whether a question of so many units ends where it is known to be clear. One of none is wrong.
fn is_known_granted(clock: u32, clear: u64, units: u16) -> bool
    ensures { result ≡ known_granted clock clear units }
{
    units != 0 && u64::from(clock) + u64::from(units) <= clear
}

// An advance that ends at a place.
fn advance(clock: u32, pending: Option<Switch>, units: u16, end: usize) -> Plain
    ensures { result ≡ goes_to (clock_advance clock pending units) end }
{
    match station::advance_clock(clock, pending, u32::from(units)) {
        Ok(Advanced::Goes(clock)) => Plain::Goes { clock, end },
        _ => Plain::Other,
    }
}

// The record at a place, with the clock at a moment and everything clear up to another.
fn plain_at(used: &[u8], at: usize, clock: u32, pending: Option<Switch>, clear: u64) -> Plain
    ensures { PlainAt used.now at clock pending clear result }
{
    let Found::Whole { kind, start, end } = capture_record::record_at(used, at) else {
        return Plain::Other;
    };
    match capture_record::entry_of(kind, &used[start..end]) {
        Entry::Advance(units) => advance(clock, pending, units, end),
        Entry::Ask(units) if is_known_granted(clock, clear, units) => Plain::Granted { end },
        _ => Plain::Other,
    }
}

// A place among the records, the clock there, and the lines by then.
#[derive(Clone, Copy)]
pub struct Ran {
    pub at: usize,
    pub clock: u32,
    pub pen: Pen,
}

// The lines of such records from a place on, up to the first other record; where no station is followed there are none.
// Kept as parameters: the digits are lent and the pen is copied, so no type holds both.
pub fn run(
    used: &[u8],
    from: Ran,
    active: bool,
    pending: Option<Switch>,
    clear: u64,
    digits: &mut [u8],
    out: &mut [u8],
) -> Ran
    requires spells { Spells from.pen.lines digits.old from.pen.from }
    requires in_bounds { from.at ≤ length used.now }
    requires numbered { from.pen.lines + lines_left (length used.now - from.at) ≤ line_limit }
    requires room { from.pen.count + line_room * lines_left (length used.now - from.at) ≤ length out.old }
    ensures { RanFrom used.now from.at active from.clock pending clear from.pen out.old result digits.new out.new }
{
    if !active {
        return from;
    }
    let mut ran = from;
    loop {
        match plain_at(used, ran.at, ran.clock, pending, clear) {
            Plain::Other => return ran,
            Plain::Goes { clock, end } => {
                let pen = pen::put_accepted(ran.pen, digits, Word::Advance, out);
                ran = Ran {
                    at: end,
                    clock,
                    pen,
                };
            }
            Plain::Granted { end } => {
                let pen = pen::put_accepted(ran.pen, digits, Word::Ask, out);
                ran = Ran {
                    at: end,
                    pen,
                    ..ran
                };
            }
        }
    }
}
