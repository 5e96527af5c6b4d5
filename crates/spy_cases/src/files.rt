// Writes the parts of a trace file into lent bytes; what lies past their end is left out.
ghost use Rattle.std.specs.Prelude.{◌≡◌, ◌+◌, ◌*◌};

use trace::limits::{ITEM, ROWS_AT};
use trace::put;
use trace::rows::Kind;

fn put_word(file: &mut [u8], at: usize, value: u16) {
    let [low, high] = value.to_le_bytes();
    put(file, at, low);
    put(file, at.saturating_add(1), high);
}

pub fn length_of(rows: u16, events: u16) -> usize
    ensures { result ≡ 20 + 8 * (rows + events) }
{
    ROWS_AT + ITEM * (usize::from(rows) + usize::from(events))
}

pub fn put_header(file: &mut [u8], set: u8, rows: u16, events: u16) {
    put_word(file, 0, 1);
    put(file, 4, set);
    put_word(file, 12, ROWS_AT as u16);
    put_word(file, 14, rows);
    put_word(file, 16, (length_of(rows, 0) % 0x10000) as u16);
    put_word(file, 18, events);
}

// A row with role 0.
pub fn put_row(file: &mut [u8], r: u16, kind: Kind, x: u16, y: u16, z: u16) {
    let at = length_of(r, 0);
    put(file, at, kind as u8);
    put_word(file, at + 2, x);
    put_word(file, at + 4, y);
    put_word(file, at + 6, z);
}

// Agent 2 says a row to 3.
pub fn put_says(file: &mut [u8], rows: u16, e: u16, row: u16) {
    let at = length_of(rows, e);
    put(file, at, 0);
    put(file, at + 1, 2);
    put(file, at + 2, 3);
    put_word(file, at + 4, row);
}
