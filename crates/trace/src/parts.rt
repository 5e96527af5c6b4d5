// Where parts of the lent file lie: the eight bytes of a row or an event.
ghost use Rattle.std.specs.Prelude.{◌+◌, ◌<◌, ◌≡◌, leb};
ghost use Rattle.trace.specs.Items.{far};
ghost use Rattle.trace.specs.Part.{nothing};
ghost use Rattle.trace.specs.Spans.{eight_at, row_span, event_span};

use super::header::row_count;
use super::limits::ITEM;
use super::places::{event_place, row_place};
use super::{EventNo, RowNo, Span};

// The empty part that starts at byte 0.
pub fn no_span() -> Span
    ensures { result ≡ nothing }
{
    Span { start: 0, size: 0 }
}

fn eight_at(file: &[u8], at: usize) -> Span
    requires { at < far }
    ensures { result ≡ eight_at file.now at }
{
    if at + ITEM <= file.len() {
        Span {
            start: at,
            size: ITEM,
        }
    } else {
        no_span()
    }
}

pub fn row_span(file: &[u8], r: RowNo) -> Span
    ensures { result ≡ row_span file.now r.0 }
{
    eight_at(file, row_place(r.0))
}

// The eight bytes of an event, or the empty part where the file is too short for it.
pub fn event_span(file: &[u8], e: EventNo) -> Span
    ensures { result ≡ event_span file.now e.0 }
{
    eight_at(file, event_place(row_count(file), e.0))
}

// Whether a file of len bytes is long enough; the sum of start and size could wrap.
pub fn ends_within(span: Span, len: usize) -> bool
    ensures { result ≡ leb (span.start + span.size) len }
{
    span.start <= len && span.size <= len - span.start
}
