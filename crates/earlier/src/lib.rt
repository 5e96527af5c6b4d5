// One search over earlier events, for what any rule looks for.
#![tactic(auto)]

pub mod boxes;
mod cards;

ghost use Rattle.std.specs.Prelude.{◌≡◌};
ghost use Rattle.earlier.specs.Earlier.{heard_in, said_to, said_by, noted_by};

pub use boxes::{Boxes, EMPTY, happened};
use forms::{Hello, Remembered, Reply};
use trace::Event;

// Who said it: anyone to this agent, one agent to another, or this agent to anyone.
#[derive(Clone, Copy, PartialEq, Eq)]
pub enum Who {
    To(u16),
    By(u16, u16),
    From(u16),
}

// A message that was said: agents by their numbers, other parts by their rows.
#[derive(Clone, Copy, PartialEq, Eq)]
pub enum What {
    // This CH, and any CH of A with this SID: A, SID.
    Hello(Hello),
    HelloFor(u16, u16),
    // This SH, and any SH with this Nb.
    Reply(Reply),
    ReplyWith(u16),
    // cert(B, K): B, K.
    Certificate(u16, u16),
    // Crypt (B's public key) PMS: B, PMS.
    Sent(u16, u16),
    // Anything under this key.
    Under(u16),
}

// A message that was noted: {Agent B, PMS}, by B and PMS, or this session.
#[derive(Clone, Copy, PartialEq, Eq)]
pub enum Note {
    Secret(u16, u16),
    Session(Remembered),
}

// What a rule looks for: what was said, and who said it; or what an agent noted.
#[derive(Clone, Copy, PartialEq, Eq)]
pub enum Wanted {
    Said(Who, What),
    Noted(u16, Note),
}

// Whether the event says something to this agent.
pub fn said_to(event: Event, to: u16) -> bool
    ensures { result ≡ said_to (heard_in event) to }
{
    matches!(event, Event::Says(_, receiver, _) if receiver.0 == to)
}

// Whether one agent says something to the other.
pub fn said_by(event: Event, from: u16, to: u16) -> bool
    ensures { result ≡ said_by (heard_in event) from to }
{
    matches!(event, Event::Says(sender, receiver, _) if sender.0 == from && receiver.0 == to)
}

// Whether the agent notes something.
pub fn noted_by(event: Event, from: u16) -> bool
    ensures { result ≡ noted_by (heard_in event) from }
{
    matches!(event, Event::Notes(agent, _) if agent.0 == from)
}
