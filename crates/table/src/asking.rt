// Asking to send for a station of the table (document 02, Six).
ghost use Rattle.std.specs.Prelude.{◌≡◌};
ghost use Rattle.table.specs.Tables.{asked_number, ask_means};
ghost use Rattle.table.specs.Validity.{ValidTable};

use crate::Table;
use answer::Refusal;
use station::Permission;

// The number of what a question gets.
pub fn number(asked: Result<Permission, Refusal>) -> u8
    ensures { result ≡ asked_number asked }
{
    match asked {
        Err(refusal) => refusal.number(),
        Ok(permission) => permission.number(),
    }
}

impl Table {
    // Whether the station of an address may send for so many TU.
    #[tactic(auto, using(crate::proofs::Outcomes::asking))]
    pub fn ask(self, own: [u8; 6], units: u32) -> Result<Permission, Refusal>
        requires { ValidTable self }
        ensures { result ≡ ask_means self own units }
    {
        let rows = self.rows;
        match row::place_of(rows, own) {
            None => Err(Refusal::NotJoined),
            Some(at) => Ok(rows[at].station.ask(units)),
        }
    }
}
