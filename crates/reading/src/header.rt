// What the contents part has to hold: refusals 2 to 4.
ghost use Rattle.std.specs.Prelude.{◌≡◌};
ghost use Rattle.trace.specs.Tests.{wrong_version, wrong_set, wrong_contents};

use trace::header::Header;
use trace::limits::{EVENTS, ROWS, ROWS_AT};
use trace::places::{event_place, row_place};
use trace::{AUTHORITY, SPY};

const VERSION: u16 = 1;

const RESERVED: u16 = 0;

pub fn wrong_version(h: Header) -> bool
    ensures { result ≡ wrong_version h }
{
    (h.version != VERSION) | (h.reserved != RESERVED)
}

pub fn wrong_set(file: &[u8]) -> bool
    ensures { result ≡ wrong_set file.now }
{
    !trace::compromised(file, SPY) | trace::compromised(file, AUTHORITY)
}

pub fn wrong_contents(h: Header, len: usize) -> bool
    ensures { result ≡ wrong_contents h len }
{
    let events_at = row_place(h.rows);
    let end = event_place(h.rows, h.events);
    (ROWS < h.rows)
        | (EVENTS < h.events)
        | (usize::from(h.rows_at) != ROWS_AT)
        | (usize::from(h.events_at) != events_at)
        | (len != end)
}
