// The four Finished over rows: rules 8, 9, 12 and 13.
#![tactic(auto)]

ghost use Rattle.std.specs.Prelude.{◌≡◌};
ghost use Rattle.earlier.specs.Boxes.{found};
ghost use Rattle.earlier.specs.Earlier.{heard_in};
ghost use Rattle.finished.specs.Tests.{own_finished, secret_of, hello_in, reply_in, session_in, greeted, client_finished, server_finished, client_resume, server_resume};

use earlier::{Boxes, Note, Wanted, What, Who};
use forms::{Hello, Remembered, Reply, Sealed};
use trace::{Event, Role};

// The Finished of that role, said by its own side: the client's by A to B, the server's by B to A.
#[tactic(auto, using(crate::proofs::Owned::not_own))]
fn own_finished(file: &[u8], event: Event, role: Role) -> Option<Sealed>
    ensures { result ≡ own_finished file.now (heard_in event) role }
{
    let Event::Says(from, to, row) = event else {
        return None;
    };
    if !forms::under_key(file, row.0, role) {
        return None;
    }
    let m = forms::finished(file, row.0)?;
    let by_its_side = match m.role {
        Role::Client => m.a == from.0 && m.b == to.0,
        Role::Server => m.b == from.0 && m.a == to.0,
    };
    let own = m.role == role && by_its_side;
    own.then_some(m)
}

// The secret of a Finished whose M is the PRF of it and the same Na and Nb.
fn secret_of(file: &[u8], m: Sealed) -> Option<u16>
    ensures { result ≡ secret_of file.now m }
{
    let p = forms::leaves::prf_of(file, m.m)?;
    let same = p.na == m.na && p.nb == m.nb;
    same.then_some(p.secret)
}

// The hello, the reply and the session that a Finished holds.
fn hello_in(m: Sealed) -> What
    ensures { result ≡ hello_in m }
{
    What::Hello(Hello {
        agent: m.a,
        na: m.na,
        sid: m.sid,
        pa: m.pa,
    })
}

fn reply_in(m: Sealed) -> What
    ensures { result ≡ reply_in m }
{
    What::Reply(Reply {
        nb: m.nb,
        sid: m.sid,
        pb: m.pb,
    })
}

fn session_in(m: Sealed) -> Note
    ensures { result ≡ session_in m }
{
    Note::Session(Remembered {
        sid: m.sid,
        a: m.a,
        b: m.b,
        m: m.m,
    })
}

// Whether its side had the hello and the reply of a Finished: A said CH and was told SH, B was told CH and said SH.
fn greeted(file: &[u8], boxes: &Boxes, m: Sealed) -> bool
    ensures { result ≡ greeted (found file.now boxes.now) m }
{
    let (hello, reply) = match m.role {
        Role::Client => (Who::By(m.a, m.b), Who::To(m.a)),
        Role::Server => (Who::To(m.b), Who::By(m.b, m.a)),
    };
    earlier::happened(file, boxes, Wanted::Said(hello, hello_in(m)))
        && earlier::happened(file, boxes, Wanted::Said(reply, reply_in(m)))
}

// Rule 8: ClientFinished.
#[tactic(auto, unfolding(crate::specs::Tests::client_finished))]
pub fn client_finished(file: &[u8], boxes: &Boxes, event: Event) -> bool
    ensures { result ≡ client_finished file.now (found file.now boxes.now) (heard_in event) }
{
    let Some(m) = own_finished(file, event, Role::Client) else {
        return false;
    };
    let Some(secret) = secret_of(file, m) else {
        return false;
    };
    greeted(file, boxes, m)
        && earlier::happened(file, boxes, Wanted::Noted(m.a, Note::Secret(m.b, secret)))
}

// Rule 9: ServerFinished.
#[tactic(auto, unfolding(crate::specs::Tests::server_finished))]
pub fn server_finished(file: &[u8], boxes: &Boxes, event: Event) -> bool
    ensures { result ≡ server_finished file.now (found file.now boxes.now) (heard_in event) }
{
    let Some(m) = own_finished(file, event, Role::Server) else {
        return false;
    };
    let Some(secret) = secret_of(file, m) else {
        return false;
    };
    let sent = Wanted::Said(Who::To(m.b), What::Sent(m.b, secret));
    greeted(file, boxes, m) && earlier::happened(file, boxes, sent)
}

// Rule 12: ClientResume.
#[tactic(auto, unfolding(crate::specs::Tests::client_resume))]
pub fn client_resume(file: &[u8], boxes: &Boxes, event: Event) -> bool
    ensures { result ≡ client_resume file.now (found file.now boxes.now) (heard_in event) }
{
    let Some(m) = own_finished(file, event, Role::Client) else {
        return false;
    };
    greeted(file, boxes, m) && earlier::happened(file, boxes, Wanted::Noted(m.a, session_in(m)))
}

// Rule 13: ServerResume.
#[tactic(auto, unfolding(crate::specs::Tests::server_resume))]
pub fn server_resume(file: &[u8], boxes: &Boxes, event: Event) -> bool
    ensures { result ≡ server_resume file.now (found file.now boxes.now) (heard_in event) }
{
    let Some(m) = own_finished(file, event, Role::Server) else {
        return false;
    };
    greeted(file, boxes, m) && earlier::happened(file, boxes, Wanted::Noted(m.b, session_in(m)))
}
