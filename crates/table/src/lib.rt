// Sixteen stations on one clock (document 02, Six): one AP, one beacon interval, one clock, and a row for each station that is joined.
#![tactic(auto)]

mod asking;
mod clock;
mod joining;
mod replying;
mod starting;
mod taking;

ghost use Rattle.std.specs.Prelude.{◌≡◌, ◌<◌, set, Ok, Err};
ghost use Rattle.row.specs.Rows.{row_count};
ghost use Rattle.table.specs.CodeTerms.Hearing.{reader_at};
ghost use Rattle.table.specs.Tables.{reader_of, stepped, with_rows};

use answer::Refusal;
pub use asking::number;
use row::Row;
pub use taking::Taken;

// What is kept between calls. Every station that is joined has the table's AP, interval and clock.
// Kept: `ValidTable` stands in the contracts, as `Valid` does for a station: the fields are public.
#[derive(Clone, Copy)]
pub struct Table {
    pub ap: [u8; 6],
    pub interval: u16,
    pub clock: u32,
    pub rows: [Row; row::ROWS],
}

// The answer, and the table after the call: the same as before where the call was refused.
// Kept beside one another: a refused call gives the table back, and `tick_of` promises which. The field says whose state it is.
#[derive(Clone, Copy)]
pub struct Stepped {
    pub answer: Result<(), Refusal>,
    pub table: Table,
}

impl Stepped {
    fn refused(refusal: Refusal, table: Table) -> Stepped
        ensures { result ≡ stepped table (Err refusal) }
    {
        Stepped {
            answer: Err(refusal),
            table,
        }
    }

    fn accepted(table: Table) -> Stepped
        ensures { result ≡ stepped table (Ok table) }
    {
        Stepped {
            answer: Ok(()),
            table,
        }
    }
}

// The station as which a frame to an address is read: that address, where a station of it sits at a place, or one that only frames to all ones reach.
fn reader_at(place: Option<usize>, to: [u8; 6]) -> [u8; 6]
    ensures { result ≡ reader_at place to }
{
    match place {
        Some(_) => to,
        None => [255; 6],
    }
}

impl Table {
    // The station as which a frame is read.
    #[tactic(auto, using(crate::proofs::Readers::reader_placed))]
    fn reader_of(self, frame: &[u8]) -> [u8; 6]
        ensures { result ≡ reader_of self frame.now }
    {
        let to = header::receiver(frame);
        let rows = self.rows;
        reader_at(row::place_of(rows, to), to)
    }

    // The same with another row at a place.
    fn with_row(self, place: usize, row: Row) -> Table
        requires { place < row_count }
        ensures { result ≡ with_rows self (set self.rows place row) }
    {
        let mut rows = self.rows;
        rows[place] = row;
        Table { rows, ..self }
    }
}
