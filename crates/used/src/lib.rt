// Which rows are used: the parts of the messages of the events so far.
//
// A mark for each row, in an array. A row is marked after its parts, so that at every moment the parts
// of a marked row are marked.
#![tactic(auto)]

ghost use Rattle.std.specs.Prelude.{◌≡◌, suc};
ghost use Rattle.trace.specs.Events.{event_at};
ghost use Rattle.used.specs.Marking.{used_below, use_row, use_event};

use trace::limits::{ROW_LIMIT, ROWS};
use trace::{Event, EventNo, Row, RowNo};

// Marks a row and its parts. A row that is marked has its parts marked, so shared rows are walked once.
#[cycle(mark_below_mark_used)]
fn mark_used(file: &[u8], rows: &mut [u8; ROW_LIMIT], row: u16)
    ensures { rows.new ≡ use_row file.now (suc row) rows.old row }
{
    if closure::row_marked(rows, row) || ROWS <= row {
        return;
    }
    match trace::row_at(file, RowNo(row)) {
        Row::Pair(x, y) => {
            mark_below(file, rows, row, x.0);
            mark_below(file, rows, row, y.0);
        }
        Row::Crypt(_, body) => mark_below(file, rows, row, body.0),
        _ => {}
    }
    rows[usize::from(row)] = 1;
}

#[cycle(mark_below_mark_used)]
fn mark_below(file: &[u8], rows: &mut [u8; ROW_LIMIT], row: u16, x: u16)
    ensures { rows.new ≡ used_below (use_row file.now row) rows.old row x }
{
    if x < row {
        mark_used(file, rows, x);
    }
}

// An event uses the parts of its message, a note of an honest agent too.
pub fn use_event(file: &[u8], rows: &mut [u8; ROW_LIMIT], e: EventNo)
    ensures { rows.new ≡
        use_event file.now rows.old (event_at file.now e.0) }
{
    match trace::event_at(file, e) {
        Event::Says(_, _, r) | Event::Notes(_, r) => mark_used(file, rows, r.0),
    }
}
