// Joining and leaving a table (document 02, Six): a row is joined by an address and left by it.
ghost use Rattle.std.specs.Prelude.{◌≡◌};
ghost use Rattle.table.specs.CodeTerms.Seating.{seat_among, seat_means};
ghost use Rattle.table.specs.Tables.{join_of, leave_of, stepped};
ghost use Rattle.table.specs.Validity.{ValidTable};

use crate::{Stepped, Table};
use answer::Refusal;
use station::Station;

// 25 where a station of its address sits somewhere, before 24 where no row is free.
// Kept as a match: the edit `joined_is_full`, which must fail, changes one of its lines.
fn seat_among(sitting: Option<usize>, vacant: Option<usize>) -> Result<usize, Refusal>
    ensures { result ≡ seat_among sitting vacant }
{
    match sitting {
        Some(_) => Err(Refusal::AlreadyJoined),
        None => vacant.ok_or(Refusal::NoFreeRow),
    }
}

impl Table {
    // A station takes the first free row.
    #[tactic(auto, using(crate::proofs::Outcomes::seat_within))]
    fn seat(self, station: Station) -> Stepped
        requires { ValidTable self }
        ensures { result ≡ stepped self (seat_means self station) }
    {
        let rows = self.rows;
        match seat_among(row::place_of(rows, station.own), row::free_place(rows)) {
            Err(refusal) => Stepped::refused(refusal, self),
            Ok(place) => Stepped::accepted(self.with_row(place, rows[place].taken_by(station))),
        }
    }

    // A new station begins afresh at the table's clock, on the channel that is named. What its start is refused for comes first, which is 15.
    #[tactic(auto, using(crate::proofs::Outcomes::join_accepted))]
    pub fn join(self, own: [u8; 6], channel: u8) -> Stepped
        requires { ValidTable self }
        ensures value { result ≡ join_of self own channel }
        ensures kept { ValidTable result.table }
    {
        match Station::start(own, self.ap, self.interval, channel) {
            Err(refusal) => Stepped::refused(refusal, self),
            Ok(fresh) => self.seat(Station {
                clock: self.clock,
                ..fresh
            }),
        }
    }

    // Its row is free again.
    #[tactic(auto, using(crate::proofs::Outcomes::leaving))]
    pub fn leave(self, own: [u8; 6]) -> Stepped
        requires { ValidTable self }
        ensures value { result ≡ leave_of self own }
        ensures kept { ValidTable result.table }
    {
        let rows = self.rows;
        match row::place_of(rows, own) {
            None => Stepped::refused(Refusal::NotJoined, self),
            Some(place) => Stepped::accepted(self.with_row(place, rows[place].vacated())),
        }
    }
}
