// Where the rows and the events of a file begin.
ghost use Rattle.std.specs.Prelude.{◌≡◌, ◌+◌, ◌*◌};
ghost use Rattle.trace.specs.File.{rows_from};

use super::limits::{ITEM, ROWS_AT};

pub fn row_place(r: u16) -> usize
    ensures { result ≡ rows_from + 8 * r }
{
    ROWS_AT + ITEM * usize::from(r)
}

// The events stand behind as many rows.
pub fn event_place(rows: u16, e: u16) -> usize
    ensures { result ≡ rows_from + 8 * rows + 8 * e }
{
    row_place(rows) + ITEM * usize::from(e)
}
