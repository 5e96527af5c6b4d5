// What each event has to hold: refusal 7.
#![tactic(auto)]

ghost use Rattle.std.specs.Prelude.{◌≡◌};
ghost use Rattle.trace.specs.Tests.{event_fits, bad_event};
ghost use Rattle.laws.specs.First.{found};

use trace::events::{Parts, parts_at};
use trace::limits::AGENTS;

// Whether the event's parts are in range, its zeros are zero and its row exists.
fn event_fits(p: Parts, rows: u16) -> bool
    ensures { result ≡ event_fits p rows }
{
    (p.kind <= 1)
        & (p.sender < AGENTS)
        & (p.receiver < AGENTS)
        & ((p.kind == 0) | (p.receiver == 0))
        & (p.zero == 0)
        & (p.row < rows)
        & (p.rest == 0)
}

// The lowest event that is not well formed.
pub fn first_bad_event(file: &[u8], rows: u16, events: u16) -> Option<u16>
    ensures { result ≡ found (bad_event file.now rows) events }
{
    (0..events).find(|&e| !event_fits(parts_at(file, e), rows))
}
