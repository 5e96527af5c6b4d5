// The card of an event: what its message is, with its parts. It is written once, when the event is kept, and every
// search compares cards instead of reading messages again.
ghost use Rattle.std.specs.Prelude.{◌≡◌};
ghost use Rattle.forms.specs.Kinds.{public_of};
ghost use Rattle.forms.specs.Forms.{kept_of, signed_of, remembered_of};
ghost use Rattle.earlier.specs.Earlier.{heard_in};
ghost use Rattle.earlier.specs.Cards.{crypt_card, said_card, noted_with, card_of, fits_said, fits_noted, fits_card, fits_agents};

use super::{Note, Wanted, What, Who, noted_by, said_by, said_to};
use forms::leaves::Crypt;
use forms::{Hello, Kept, Remembered, Reply, Signed};
use trace::Event;

// A message as the searches compare it.
#[derive(Clone, Copy, PartialEq, Eq)]
pub enum Card {
    // None that is looked for; the first, so that a card of zeros is one.
    Other,
    Hello(Hello),
    Reply(Reply),
    Secret(Kept),
    Session(Remembered),
    // A Crypt that is a certificate: the row of the key that it is under, and its parts.
    Certificate(u16, Signed),
    // A Crypt under an agent's public key: that key's row, the agent, the row of the body.
    Sent(u16, u16, u16),
    // Any other Crypt: the row of its key.
    Crypt(u16),
}

fn crypt_card(file: &[u8], r: u16, c: Crypt) -> Card
    ensures { result ≡ crypt_card c (signed_of file.now r) (public_of file.now c.key) }
{
    if let Some(s) = forms::certificate(file, r) {
        return Card::Certificate(c.key, s);
    }
    match forms::leaves::public_of(file, c.key) {
        Some(agent) => Card::Sent(c.key, agent, c.body),
        None => Card::Crypt(c.key),
    }
}

fn said_card(file: &[u8], r: u16) -> Card
    ensures { result ≡ said_card file.now r }
{
    if let Some(c) = forms::leaves::crypt_of(file, r) {
        return crypt_card(file, r, c);
    }
    if let Some(m) = forms::client_hello(file, r) {
        return Card::Hello(m);
    }
    match forms::server_hello(file, r) {
        Some(m) => Card::Reply(m),
        None => Card::Other,
    }
}

fn noted_card(file: &[u8], r: u16) -> Card
    ensures { result ≡ noted_with (kept_of file.now r) (remembered_of file.now r) }
{
    if let Some(m) = forms::secret_note(file, r) {
        return Card::Secret(m);
    }
    match forms::session_note(file, r) {
        Some(m) => Card::Session(m),
        None => Card::Other,
    }
}

pub fn card_of(file: &[u8], event: Event) -> Card
    ensures { result ≡ card_of file.now (heard_in event) }
{
    match event {
        Event::Says(_, _, row) => said_card(file, row.0),
        Event::Notes(_, row) => noted_card(file, row.0),
    }
}

#[inline(always)]
fn fits_said(what: What, card: Card) -> bool
    ensures { result ≡ fits_said what card }
{
    match (what, card) {
        (What::Hello(hello), Card::Hello(m)) => m == hello,
        (What::HelloFor(agent, sid), Card::Hello(m)) => m.agent == agent && m.sid == sid,
        (What::Reply(reply), Card::Reply(m)) => m == reply,
        (What::ReplyWith(nb), Card::Reply(m)) => m.nb == nb,
        (What::Certificate(agent, key), Card::Certificate(_, m)) => {
            m.agent == agent && m.key == key
        }
        (What::Sent(to, secret), Card::Sent(_, agent, body)) => agent == to && body == secret,
        (What::Under(key), Card::Certificate(under, _)) => under == key,
        (What::Under(key), Card::Sent(under, _, _)) => under == key,
        (What::Under(key), Card::Crypt(under)) => under == key,
        _ => false,
    }
}

#[inline(always)]
fn fits_noted(note: Note, card: Card) -> bool
    ensures { result ≡ fits_noted note card }
{
    match (note, card) {
        (Note::Secret(agent, secret), Card::Secret(m)) => m.agent == agent && m.secret == secret,
        (Note::Session(session), Card::Session(m)) => m == session,
        _ => false,
    }
}

// Whether the message is what is wanted.
#[inline(always)]
pub fn fits_card(wanted: Wanted, card: Card) -> bool
    ensures { result ≡ fits_card wanted card }
{
    match wanted {
        Wanted::Said(_, what) => fits_said(what, card),
        Wanted::Noted(_, note) => fits_noted(note, card),
    }
}

// Whether the event is of the agents that are wanted.
pub fn fits_agents(wanted: Wanted, event: Event) -> bool
    ensures { result ≡ fits_agents wanted (heard_in event) }
{
    match wanted {
        Wanted::Said(Who::To(to), _) => said_to(event, to),
        Wanted::Said(Who::By(from, to), _) => said_by(event, from, to),
        Wanted::Said(Who::From(from), _) => {
            matches!(event, Event::Says(sender, _, _) if sender.0 == from)
        }
        Wanted::Noted(from, _) => noted_by(event, from),
    }
}
