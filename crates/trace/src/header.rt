// The contents part, read in one place.
ghost use Rattle.std.specs.Prelude.{◌≡◌};
ghost use Rattle.trace.specs.File.{rows_of, compromised_in};
ghost use Rattle.trace.specs.Tests.{header_of};

use super::limits::AGENTS;
use super::{AgentNo, bytes};

const SET_AT: usize = 4;

const ROW_COUNT_AT: usize = 14;

#[derive(Clone, Copy, PartialEq, Eq, Debug)]
pub struct Header {
    pub version: u16,
    pub reserved: u16,
    pub rows_at: u16,
    pub rows: u16,
    pub events_at: u16,
    pub events: u16,
}

// A shorter file has zeros past its end.
pub fn header_of(file: &[u8]) -> Header
    ensures { result ≡ header_of file.now }
{
    Header {
        version: bytes::word_at(file, 0),
        reserved: bytes::word_at(file, 2),
        rows_at: bytes::word_at(file, 12),
        rows: row_count(file),
        events_at: bytes::word_at(file, 16),
        events: bytes::word_at(file, 18),
    }
}

// The number of rows alone, which every reader of an event needs.
pub fn row_count(file: &[u8]) -> u16
    ensures { result ≡ rows_of file.now }
{
    bytes::word_at(file, ROW_COUNT_AT)
}

// Whether the agent is in the file's compromised set.
pub fn compromised(file: &[u8], a: AgentNo) -> bool
    ensures { result ≡ compromised_in file.now a.0 }
{
    let set = bytes::byte_at(file, SET_AT + usize::from(a.0 / 8));
    (a.0 < AGENTS) & ((set >> (a.0 % 8)) % 2 == 1)
}
