// The whole row of stations is stepped by one tick call (document 02, Six).
ghost use Rattle.std.specs.Prelude.{◌≡◌};
ghost use Rattle.row.specs.Rows.{ValidRows, ticked};

use crate::Row;

// Every station that is joined goes on by so many TU: one thin loop over the advance of a row by value, on rows that are lent and changed where they lie.
pub fn tick(rows: &mut [Row], units: u32)
    requires { ValidRows rows.old }
    ensures rows_after { rows.new ≡ ticked units rows.old }
    ensures kept { ValidRows rows.new }
{
    for row in rows {
        *row = row.advance(units);
    }
}

// The rows lie in a local, which is lent for one call.
pub fn tick_all(rows: [Row; crate::ROWS], units: u32) -> [Row; crate::ROWS]
    requires { ValidRows rows }
    ensures value { result ≡ ticked units rows }
    ensures kept { ValidRows result }
{
    let mut next = rows;
    tick(&mut next, units);
    next
}
