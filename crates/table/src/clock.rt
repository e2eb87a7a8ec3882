// The clock of a table (document 02, Six): one tick steps the whole row of stations.
ghost use Rattle.std.specs.Prelude.{◌≡◌};
ghost use Rattle.table.specs.Tables.{tick_of};
ghost use Rattle.table.specs.Validity.{ValidTable};

use crate::{Stepped, Table};
use answer::Refusal;
use station::Station;

impl Table {
    // It is refused for the whole table, or every station that is joined goes on, with the table's clock.
    #[tactic(auto, unfolding(crate::specs::Tables::tick_means, answer::specs::Checks::checked), using(crate::proofs::StaysValid::valid_ticked))]
    pub fn tick(self, units: u32) -> Stepped
        requires { ValidTable self }
        ensures value { result ≡ tick_of self units }
        ensures kept { ValidTable result.table }
    {
        // Kept beside that of a station: a table has a clock without any station, and no switch that is pending.
        if Station::UNIT_LIMIT < units || Station::CLOCK_LIMIT - self.clock < units {
            return Stepped::refused(Refusal::PastClock, self);
        }
        Stepped::accepted(Table {
            clock: self.clock + units,
            rows: row::tick_all(self.rows, units),
            ..self
        })
    }
}
