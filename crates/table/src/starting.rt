// Starting a table (document 02, Six; document 01, "Answer numbers", 15).
ghost use Rattle.std.specs.Prelude.{◌≡◌, IfOk};
ghost use Rattle.table.specs.Tables.{empty, start_forbids, start_means};
ghost use Rattle.table.specs.Validity.{ValidTable};

use crate::Table;
use answer::Refusal;
use row::Row;

impl Table {
    // At clock 0, with every row free.
    fn empty(ap: [u8; 6], interval: u16) -> Table
        ensures { result ≡ empty ap interval }
    {
        let free = Row::free();
        Table {
            ap,
            interval,
            clock: 0,
            rows: [free; row::ROWS],
        }
    }

    // The interval is 0, or the AP's address is a group's.
    fn is_bad_start(ap: [u8; 6], interval: u16) -> bool
        ensures { result ≡ start_forbids ap interval }
    {
        interval == 0 || ap[0] % 2 == 1
    }

    // It begins at clock 0, or is refused with 15.
    #[tactic(auto, unfolding(crate::specs::Tables::start_means, answer::specs::Checks::checked), using(crate::proofs::StaysValid::valid_empty))]
    pub fn start(ap: [u8; 6], interval: u16) -> Result<Table, Refusal>
        ensures value { result ≡ start_means ap interval }
        ensures valid { IfOk result ValidTable }
    {
        if Table::is_bad_start(ap, interval) {
            return Err(Refusal::BadStart);
        }
        Ok(Table::empty(ap, interval))
    }
}
