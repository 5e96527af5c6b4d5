// Events: the parts of each, and what the event is.
ghost use Rattle.std.specs.Prelude.{◌≡◌};
ghost use Rattle.trace.specs.Events.{parts_at, event_of};
ghost use Rattle.trace.specs.Items.{parts_of};

use super::header::row_count;
use super::limits::ITEM;
use super::places::event_place;
use super::{AgentNo, Event, RowNo, bytes};

#[derive(Clone, Copy, PartialEq, Eq, Debug)]
pub struct Parts {
    pub kind: u16,
    pub sender: u16,
    pub receiver: u16,
    pub zero: u16,
    pub row: u16,
    pub rest: u16,
}

#[tactic(auto, unfolding(crate::specs::File::word))]
fn parts_of(item: [u8; ITEM]) -> Parts
    ensures { result ≡ parts_of item }
{
    let [kind, sender, receiver, zero, a, b, c, d] = item;
    Parts {
        kind: u16::from(kind),
        sender: u16::from(sender),
        receiver: u16::from(receiver),
        zero: u16::from(zero),
        row: u16::from_le_bytes([a, b]),
        rest: u16::from_le_bytes([c, d]),
    }
}

// An event past the end of the file has zeros there. Read in place: searches read many.
#[inline(always)]
#[tactic(auto, unfolding(crate::specs::File::word))]
pub fn parts_at(file: &[u8], e: u16) -> Parts
    ensures { result ≡ parts_at file.now e }
{
    bytes::read_item(file, event_place(row_count(file), e), parts_of)
}

pub(crate) fn event_of(p: Parts) -> Event
    ensures { result ≡ event_of p }
{
    if p.kind == 0 {
        Event::Says(AgentNo(p.sender), AgentNo(p.receiver), RowNo(p.row))
    } else {
        Event::Notes(AgentNo(p.sender), RowNo(p.row))
    }
}
