// Taking a frame (document 02, Six): one reading serves all rows, since whether a frame is accepted depends on no row's state.
ghost use Rattle.std.specs.Prelude.{◌≡◌, ◌<◌};
ghost use Rattle.frame.specs.declared.Received.{Received};
ghost use Rattle.row.specs.Rows.{row_count};
ghost use Rattle.table.specs.CodeTerms.Hearing.{PlaceWithin, rows_after};
ghost use Rattle.table.specs.Tables.{take_of, with_rows};
ghost use Rattle.table.specs.Validity.{ValidTable};

use crate::Table;
use answer::Fault;
use frame::Received;

// The verdict on a frame, and the table after it: the same as before where the frame was refused.
// Kept beside one another: a refused call gives the table back, and `take_of` promises which. The field says whose state it is.
#[derive(Clone, Copy)]
pub struct Taken {
    pub verdict: Result<(), Fault>,
    pub table: Table,
}

impl Table {
    // What was read goes to the row at a place, or, where it was sent to no station alone, to all of them.
    fn heard(self, place: Option<usize>, received: Result<Received, Fault>) -> Table
        requires valid_table { ValidTable self }
        requires place_within { PlaceWithin place }
        ensures { result ≡ with_rows self (rows_after place received self.rows) }
    {
        let rows = self.rows;
        match place {
            Some(at) => self.with_row(at, rows[at].hear(received)),
            None => Table {
                rows: row::hear_all(rows, received),
                ..self
            },
        }
    }

    // The frame is read once, whatever rows it goes to.
    #[tactic(auto, using(crate::proofs::Outcomes::taking))]
    pub fn take(self, frame: &[u8]) -> Taken
        requires { ValidTable self }
        ensures value { result ≡ take_of self frame.now }
        ensures kept { ValidTable result.table }
    {
        let to = header::receiver(frame);
        let place = row::place_of(self.rows, to);
        let own = crate::reader_at(place, to);
        let received = frame::read(frame, own, self.ap, self.interval);
        match received {
            Err(fault) => Taken {
                verdict: Err(fault),
                table: self,
            },
            Ok(_) => Taken {
                verdict: Ok(()),
                table: self.heard(place, received),
            },
        }
    }
}
