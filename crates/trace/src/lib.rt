// The trace file: its contents part, rows and events, what each is, and where it lies.
// This is the only crate that reads a byte of it.
#![tactic(auto)]

mod bytes;
pub mod events;
pub mod header;
pub mod limits;
mod parts;
pub mod places;
pub mod rows;

ghost use Rattle.std.specs.Prelude.{◌≡◌};
ghost use Rattle.trace.specs.File.{events_of};
ghost use Rattle.trace.specs.Events.{event_at};
ghost use Rattle.trace.specs.Refusal.{number_of, place_of};
ghost use Rattle.trace.specs.Part.{Part};
ghost use Rattle.trace.specs.Kinds.{row_at};
ghost use Rattle.trace.specs.Spans.{fault_of, within};

pub use bytes::put;
pub use header::{compromised, row_count};
pub use parts::{event_span, no_span};

// Numbers of rows, events and agents are kept apart, and so are the values of Numbers and Nonces.
#[derive(Clone, Copy, PartialEq, Eq, Debug)]
pub struct RowNo(pub u16);

#[derive(Clone, Copy, PartialEq, Eq, Debug)]
pub struct EventNo(pub u16);

#[derive(Clone, Copy, PartialEq, Eq, Debug)]
pub struct AgentNo(pub u16);

pub const SPY: AgentNo = AgentNo(0);

// Document 01: agent 1 signs certificates.
pub const AUTHORITY: AgentNo = AgentNo(1);

#[derive(Clone, Copy, PartialEq, Eq, Debug)]
pub struct NumberValue(pub u16);

#[derive(Clone, Copy, PartialEq, Eq, Debug)]
pub struct NonceValue(pub u16);

#[derive(Clone, Copy, PartialEq, Eq, Debug)]
pub enum Role {
    Client,
    Server,
}

// A row by its kind; the references are row numbers.
#[derive(Clone, Copy, PartialEq, Eq, Debug)]
pub enum Row {
    Agent(AgentNo),
    Number(NumberValue),
    Nonce(NonceValue),
    Prf(RowNo, RowNo, RowNo),
    PublicKey(AgentNo),
    PrivateKey(AgentNo),
    SessionKey(Role, RowNo, RowNo, RowNo),
    Hash(RowNo),
    Crypt(RowNo, RowNo),
    Pair(RowNo, RowNo),
}

#[derive(Clone, Copy, PartialEq, Eq, Debug)]
pub enum Event {
    Says(AgentNo, AgentNo, RowNo),
    Notes(AgentNo, RowNo),
}

// Why a question is refused: the table of document 01, in its order.
#[derive(Clone, Copy, PartialEq, Eq, Debug)]
pub enum Cause {
    TooShort,
    WrongVersion,
    WrongSet,
    WrongContents,
    BadRow(RowNo),
    RepeatedRow(RowNo),
    BadEvent(EventNo),
    ShortBuffer,
    TooManyEvents,
}

// Where a part of the file starts, and how long it is.
#[derive(Clone, Copy, PartialEq, Eq, Debug)]
pub struct Span {
    pub start: usize,
    pub size: usize,
}

// Document 01's number and place of a cause.
pub fn number(cause: Cause) -> u16
    ensures { result ≡ number_of cause }
{
    match cause {
        Cause::TooShort => 1,
        Cause::WrongVersion => 2,
        Cause::WrongSet => 3,
        Cause::WrongContents => 4,
        Cause::BadRow(_) => 5,
        Cause::RepeatedRow(_) => 6,
        Cause::BadEvent(_) => 7,
        Cause::ShortBuffer => 8,
        Cause::TooManyEvents => 9,
    }
}

pub fn place(cause: Cause) -> u16
    ensures { result ≡ place_of cause }
{
    match cause {
        Cause::BadRow(r) | Cause::RepeatedRow(r) => r.0,
        Cause::BadEvent(e) => e.0,
        _ => 0,
    }
}

pub fn event_count(file: &[u8]) -> u16
    ensures { result ≡ events_of file.now }
{
    header::header_of(file).events
}

// Read in place, since most who ask for a row ask for one kind.
#[inline(always)]
pub fn row_at(file: &[u8], r: RowNo) -> Row
    ensures { result ≡ row_at file.now r.0 }
{
    rows::row_of(rows::fields_at(file, r.0))
}

#[inline(always)]
pub fn event_at(file: &[u8], e: EventNo) -> Event
    ensures { result ≡ event_at file.now e.0 }
{
    events::event_of(events::parts_at(file, e.0))
}

// The eight bytes that a refusal names, or the empty part.
pub fn span_at_fault(file: &[u8], cause: Cause) -> Span
    ensures { result ≡ fault_of file.now cause }
{
    match cause {
        Cause::BadRow(r) | Cause::RepeatedRow(r) => parts::row_span(file, r),
        Cause::BadEvent(e) => event_span(file, e),
        _ => no_span(),
    }
}

// The part of the file that lies there, or the empty part where the file ends before it does.
pub fn part(file: &[u8], span: Span) -> &[u8]
    ensures { Part file.entry (within file.now span) result }
{
    if parts::ends_within(span, file.len()) {
        &file[span.start..span.start + span.size]
    } else {
        &file[..0]
    }
}
