// Where a station sits among the rows, and where there is room for one (document 02, Six).
ghost use Rattle.std.specs.Prelude.{◌≡◌, position};
ghost use Rattle.row.specs.Rows.{is_of, is_free};

use crate::Row;

// Where the station of an address sits.
pub fn place_of(rows: [Row; crate::ROWS], own: [u8; 6]) -> Option<usize>
    ensures { result ≡ position (is_of own) rows }
{
    rows.iter().position(|row| row.is_of(own))
}

// The first row that is free.
pub fn free_place(rows: [Row; crate::ROWS]) -> Option<usize>
    ensures { result ≡ position is_free rows }
{
    rows.iter().position(|row| !row.joined)
}
