// A frame to all ones goes to every row (document 02, Six): it is read once.
ghost use Rattle.std.specs.Prelude.{map, ◌≡◌};
ghost use Rattle.row.specs.Rows.{ValidRows, row_heard};

use crate::Row;
use answer::Fault;
use frame::Received;

// Every station that is joined hears what was read.
// Kept as a loop: with `map` the rows went through as many copies, and a frame to all took up to 1.6 times as long.
pub fn hear_all(rows: [Row; crate::ROWS], received: Result<Received, Fault>) -> [Row; crate::ROWS]
    requires { ValidRows rows }
    ensures { result ≡ map (row_heard received) rows }
{
    let mut next = rows;
    for i in 0..crate::ROWS {
        next[i] = next[i].hear(received);
    }
    next
}
