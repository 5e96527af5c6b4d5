// What the spy can make: one sweep from the lowest row up, over the rows that it knows.
ghost use Rattle.std.specs.Prelude.{◌≡◌};
ghost use Rattle.spy.specs.Made.{made, makes, mark_of, write_marks};

use closure::row_marked;
use trace::limits::ROW_LIMIT;
use trace::{Row, RowNo, put};

const ANALYSED: u8 = 2;

const MADE: u8 = 1;

// Whether a lower row can be made, by its mark.
fn row_made(marks: &[u8], x: RowNo) -> bool
    ensures { result ≡ made marks.now x.0 }
{
    marks.get(usize::from(x.0)).is_some_and(|mark| 0 < *mark)
}

// Whether a row that is not known can be made: an Agent and a Number by themselves, the other kinds from
// what they are made of, and a Nonce, a Prf and a key never.
fn can_make(rows: &[u8; ROW_LIMIT], marks: &[u8], row: Row) -> bool
    ensures { result ≡ makes rows.now marks.now row }
{
    match row {
        Row::Agent(_) | Row::Number(_) => true,
        Row::Hash(x) => row_made(marks, x),
        Row::Crypt(k, x) => row_marked(rows, k.0) && row_made(marks, x),
        Row::Pair(x, y) => row_made(marks, x) && row_made(marks, y),
        _ => false,
    }
}

fn mark_of(file: &[u8], rows: &[u8; ROW_LIMIT], marks: &[u8], r: u16) -> u8
    ensures { result ≡ mark_of file.now rows.now marks.now r }
{
    if row_marked(rows, r) {
        ANALYSED
    } else if can_make(rows, marks, trace::row_at(file, RowNo(r))) {
        MADE
    } else {
        0
    }
}

// A mark for each of the first n rows; the rest of the buffer keeps its content.
#[tactic(auto, unfolding(crate::specs::Made::write_marks))]
pub fn write_marks(file: &[u8], rows: &[u8; ROW_LIMIT], marks: &mut [u8], n: u16)
    ensures { marks.new ≡ write_marks file.now rows.now n marks.old }
{
    for r in 0..n {
        let mark = mark_of(file, rows, marks, r);
        put(marks, usize::from(r), mark);
    }
}
