// The rules of one message over rows: which of them put an event on those before it. Shapes are
// tested before a search is run.
#![tactic(auto)]

mod synth;

ghost use Rattle.std.specs.Prelude.{◌≡◌};
ghost use Rattle.earlier.specs.Boxes.{found};
ghost use Rattle.earlier.specs.Earlier.{heard_in};
ghost use Rattle.rules.specs.Tests as tests;
ghost use Rattle.rules.specs.Making.{told, try_fake};

use closure::row_marked;
use earlier::{Boxes, Note, Wanted, What, Who};
use trace::limits::ROW_LIMIT;
use trace::{Event, SPY};

// Whether a row is a plain nonce that no event before used.
fn is_fresh(file: &[u8], used: &[u8; ROW_LIMIT], r: u16) -> bool
    ensures { result ≡ tests.fresh file.now used.now r }
{
    forms::leaves::is_plain(file, r) && !row_marked(used, r)
}

// Rule 1: the spy says what it can make. `made` holds rows that it can make, and gets more.
#[tactic(auto, unfolding(crate::specs::Making::try_fake))]
pub fn fake(file: &[u8], known: &[u8; ROW_LIMIT], made: &mut [u8; ROW_LIMIT], event: Event) -> bool
    ensures { told made.new result ≡
        try_fake file.now known.now made.old (heard_in event) }
{
    let Event::Says(from, _, row) = event else {
        return false;
    };
    from == SPY && synth::make(file, known, made, row.0)
}

// Rule 2: the spy notes keys of nonces that it knows.
#[tactic(auto, unfolding(crate::specs::Tests::spy_keys))]
pub fn spy_keys(file: &[u8], known: &[u8; ROW_LIMIT], event: Event) -> bool
    ensures { result ≡ tests.spy_keys file.now known.now (heard_in event) }
{
    let Event::Notes(by, row) = event else {
        return false;
    };
    let Some(f) = forms::spy_keys(file, row.0) else {
        return false;
    };
    by == SPY && row_marked(known, f.secret) && row_marked(known, f.na) && row_marked(known, f.nb)
}

// Rule 3: CH with a fresh nonce.
#[tactic(auto, unfolding(crate::specs::Tests::client_hello))]
pub fn client_hello(file: &[u8], used: &[u8; ROW_LIMIT], event: Event) -> bool
    ensures { result ≡ tests.client_hello file.now used.now (heard_in event) }
{
    let Event::Says(from, _, row) = event else {
        return false;
    };
    let Some(m) = forms::client_hello(file, row.0) else {
        return false;
    };
    m.agent == from.0 && is_fresh(file, used, m.na)
}

// Rule 4: SH with a fresh nonce, to the agent of a CH.
#[tactic(auto, unfolding(crate::specs::Tests::server_hello))]
pub fn server_hello(file: &[u8], boxes: &Boxes, used: &[u8; ROW_LIMIT], event: Event) -> bool
    ensures { result ≡ tests.server_hello file.now used.now (found file.now boxes.now) (heard_in event) }
{
    let Event::Says(from, to, row) = event else {
        return false;
    };
    let Some(m) = forms::server_hello(file, row.0) else {
        return false;
    };
    let hello = Wanted::Said(Who::To(from.0), What::HelloFor(to.0, m.sid));
    is_fresh(file, used, m.nb) && earlier::happened(file, boxes, hello)
}

// Rule 5: an agent's certificate of its public key.
#[tactic(auto, unfolding(crate::specs::Tests::certificate))]
pub fn certificate(file: &[u8], event: Event) -> bool
    ensures { result ≡ tests.certificate file.now (heard_in event) }
{
    let Event::Says(from, _, row) = event else {
        return false;
    };
    let Some(m) = forms::certificate(file, row.0) else {
        return false;
    };
    m.agent == from.0 && forms::leaves::public_of(file, m.key) == Some(from.0)
}

// Rule 6: a fresh secret noted, and then sent under the key of a certificate.
#[tactic(auto, unfolding(crate::specs::Tests::key_exchange))]
pub fn key_exchange(
    file: &[u8],
    boxes: &Boxes,
    used: &[u8; ROW_LIMIT],
    note: Event,
    said: Event,
) -> bool
    ensures { result ≡
        tests.key_exchange file.now used.now (found file.now boxes.now) (heard_in note) (heard_in said) }
{
    let (Event::Notes(by, noted), Event::Says(from, to, row)) = (note, said) else {
        return false;
    };
    let Some(k) = forms::secret_note(file, noted.0) else {
        return false;
    };
    let Some(c) = forms::leaves::crypt_of(file, row.0) else {
        return false;
    };
    let fresh = is_fresh(file, used, k.secret);
    let sent = from == by && to.0 == k.agent && c.body == k.secret;
    let certified = Wanted::Said(Who::To(by.0), What::Certificate(k.agent, c.key));
    fresh && sent && earlier::happened(file, boxes, certified)
}

// Rule 7: the nonce of an SH and a secret of one's own, signed.
#[tactic(auto, unfolding(crate::specs::Tests::cert_verify))]
pub fn cert_verify(file: &[u8], boxes: &Boxes, event: Event) -> bool
    ensures { result ≡ tests.cert_verify file.now (found file.now boxes.now) (heard_in event) }
{
    let Event::Says(from, to, row) = event else {
        return false;
    };
    let Some(m) = forms::cert_verify(file, row.0) else {
        return false;
    };
    let reply = Wanted::Said(Who::To(from.0), What::ReplyWith(m.nb));
    let secret = Wanted::Noted(from.0, Note::Secret(to.0, m.secret));
    m.signer == from.0
        && m.agent == to.0
        && earlier::happened(file, boxes, reply)
        && earlier::happened(file, boxes, secret)
}

// Rule 14: a session key that one spoke under, lost to the spy.
#[tactic(auto, unfolding(crate::specs::Tests::oops))]
pub fn oops(file: &[u8], boxes: &Boxes, event: Event) -> bool
    ensures { result ≡ tests.oops file.now (found file.now boxes.now) (heard_in event) }
{
    let Event::Says(from, to, row) = event else {
        return false;
    };
    let under = Wanted::Said(Who::From(from.0), What::Under(row.0));
    to == SPY
        && forms::leaves::session_of(file, row.0).is_some()
        && earlier::happened(file, boxes, under)
}
