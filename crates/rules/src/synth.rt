// Whether the spy can make a row. A row that can be made is marked; what can be made only grows with the
// events, so the marks are carried from event to event, and each such row is asked once.
ghost use Rattle.std.specs.Prelude.{◌≡◌, suc};
ghost use Rattle.trace.specs.Kinds.{row_at};
ghost use Rattle.rules.specs.Making.{told, parts_of, made_below, make_row};

use closure::row_marked;
use trace::limits::{ROW_LIMIT, ROWS};
use trace::{Row, RowNo};

// What a row is made from: a leaf of nothing, and the answer, or two lower rows.
#[derive(Clone, Copy)]
enum Parts {
    Leaf(bool),
    Two(u16, u16),
}

fn parts_of(file: &[u8], known: &[u8; ROW_LIMIT], row: u16) -> Parts
    ensures { result ≡ parts_of known.now (row_at file.now row) }
{
    match trace::row_at(file, RowNo(row)) {
        Row::Agent(_) | Row::Number(_) => Parts::Leaf(true),
        Row::Hash(x) => Parts::Two(x.0, x.0),
        Row::Crypt(k, x) if row_marked(known, k.0) => Parts::Two(x.0, x.0),
        Row::Pair(x, y) => Parts::Two(x.0, y.0),
        _ => Parts::Leaf(false),
    }
}

#[cycle(make_make_below)]
#[tactic(auto, unfolding(crate::specs::Making::make_row))]
pub fn make(file: &[u8], known: &[u8; ROW_LIMIT], made: &mut [u8; ROW_LIMIT], row: u16) -> bool
    ensures { told made.new result ≡
        make_row file.now known.now (suc row) made.old row }
{
    if row_marked(known, row) || row_marked(made, row) {
        return true;
    }
    if ROWS <= row {
        return false;
    }
    match parts_of(file, known, row) {
        Parts::Leaf(can) => can,
        Parts::Two(left, right) => {
            let both = make_below(file, known, made, row, left)
                && make_below(file, known, made, row, right);
            if both {
                made[usize::from(row)] = 1;
            }
            both
        }
    }
}

// A side that is not below the row is not made.
#[cycle(make_make_below)]
#[tactic(auto, using(crate::proofs::Depth::any_depth))]
fn make_below(
    file: &[u8],
    known: &[u8; ROW_LIMIT],
    made: &mut [u8; ROW_LIMIT],
    row: u16,
    x: u16,
) -> bool
    ensures { told made.new result ≡
        made_below (make_row file.now known.now row) made.old row x }
{
    x < row && make(file, known, made, x)
}
