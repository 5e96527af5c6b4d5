// A session that is accepted, over rows: rules 10 and 11.
#![tactic(auto)]

ghost use Rattle.std.specs.Prelude.{◌≡◌, not};
ghost use Rattle.laws.specs.First.{any};
ghost use Rattle.forms.specs.Kinds.{server_in};
ghost use Rattle.earlier.specs.Earlier.{heard_in, heard_at};
ghost use Rattle.earlier.specs.Boxes.{latest_to, chain_from, some, found};
ghost use Rattle.accepts.specs.Tests.{said_finished, told_finished, client_accepts, server_accepts, remembers};
ghost use Rattle.accepts.specs.Hashes.{mark_event, mark_all, answered_in, agreed_in, both_in};

use earlier::boxes::{events_to, sealed};
use earlier::{Boxes, Note, Wanted, What, Who};
use trace::limits::{ROW_LIMIT, ROWS};
use trace::{Event, EventNo, Role};

// What two sides agree on, as one of them noted it: the agents by their numbers, and else rows.
#[derive(Clone, Copy, PartialEq, Eq)]
pub struct Session {
    pub sid: u16,
    pub a: u16,
    pub b: u16,
    pub m: u16,
    pub na: u16,
    pub nb: u16,
}

// Whose Finished is looked for, and who says it to whom.
#[derive(Clone, Copy)]
pub struct Side {
    pub role: Role,
    pub from: u16,
    pub to: u16,
}

fn other(role: Role) -> Role
    ensures { server_in result ≡ not (server_in role) }
{
    match role {
        Role::Client => Role::Server,
        Role::Server => Role::Client,
    }
}

// Whether an event says to this agent the Finished of that role with that hash.
fn told_finished(file: &[u8], event: Event, role: Role, to: u16, hash: u16) -> bool
    ensures { result ≡ told_finished file.now (heard_in event) (server_in role) to hash }
{
    let Event::Says(_, receiver, row) = event else {
        return false;
    };
    let Some(f) = forms::finished(file, row.0) else {
        return false;
    };
    receiver.0 == to && f.hash == hash && f.role == role
}

// Whether an event is the Finished of one side of that session.
fn said_finished(file: &[u8], event: Event, by: Side, s: Session) -> bool
    ensures { result ≡ said_finished file.now (heard_in event) by s }
{
    let Event::Says(from, to, row) = event else {
        return false;
    };
    let Some(f) = forms::finished(file, row.0) else {
        return false;
    };
    let of = Session {
        sid: f.sid,
        a: f.a,
        b: f.b,
        m: f.m,
        na: f.na,
        nb: f.nb,
    };
    from.0 == by.from && to.0 == by.to && of == s && f.role == by.role
}

// The hash of the Finished of that role is marked, if event j tells one to this agent.
fn mark_event(file: &[u8], boxes: &Boxes, marks: &mut [u8; ROW_LIMIT], j: u16, role: Role, to: u16)
    ensures { marks.new ≡ mark_event file.now boxes.now (server_in role) to j marks.old }
{
    if let Some(hash) = sealed(boxes, role, j) {
        if earlier::said_to(trace::event_at(file, EventNo(j)), to) {
            trace::put(marks, usize::from(hash), 1);
        }
    }
}

// The hashes of the Finished that an agent was told are marked.
#[tactic(auto, unfolding(crate::specs::Hashes::mark_all))]
fn mark_told(file: &[u8], boxes: &Boxes, marks: &mut [u8; ROW_LIMIT], role: Role, to: u16)
    ensures { marks.new ≡ mark_all file.now boxes.now (server_in role) to
        (chain_from boxes.now (latest_to boxes.now to)) marks.old }
{
    for j in events_to(boxes, to) {
        mark_event(file, boxes, marks, j, role, to);
    }
}

fn told_any(file: &[u8], e: u16, role: Role, to: u16, hash: u16) -> bool
    ensures { result ≡ any (λ j. told_finished file.now (heard_at file.now j) (server_in role) to hash) e }
{
    (0..e).any(|j| told_finished(file, trace::event_at(file, EventNo(j)), role, to, hash))
}

// Whether a Finished with that hash was told. Only a file that is not readable has a hash past the marks.
fn answered(file: &[u8], marks: &[u8; ROW_LIMIT], e: u16, role: Role, to: u16, hash: u16) -> bool
    ensures { result ≡ answered_in file.now marks.now e (server_in role) to hash }
{
    if hash < ROWS {
        closure::row_marked(marks, hash)
    } else {
        told_any(file, e, role, to, hash)
    }
}

// Whether event i is the Finished of one side, and the other side's was told. It is read whole only
// where its hash was told.
fn agreed_at(
    file: &[u8],
    boxes: &Boxes,
    marks: &[u8; ROW_LIMIT],
    e: u16,
    i: u16,
    by: Side,
    s: Session,
) -> bool
    ensures { result ≡ agreed_in file.now boxes.now marks.now e by s i }
{
    let event = trace::event_at(file, EventNo(i));
    let Event::Says(from, to, row) = event else {
        return false;
    };
    if from.0 != by.from || to.0 != by.to || sealed(boxes, by.role, i).is_none() {
        return false;
    }
    let Some(c) = forms::leaves::crypt_of(file, row.0) else {
        return false;
    };
    let told = answered(file, marks, e, other(by.role), by.from, c.body);
    told && said_finished(file, event, by, s)
}

fn agreed_any(
    file: &[u8],
    boxes: &Boxes,
    marks: &[u8; ROW_LIMIT],
    e: u16,
    by: Side,
    s: Session,
) -> bool
    ensures { result ≡ some (agreed_in file.now boxes.now marks.now e by s)
        (chain_from boxes.now (latest_to boxes.now by.to)) }
{
    events_to(boxes, by.to).any(|i| agreed_at(file, boxes, marks, e, i, by, s))
}

// One side said its Finished to the other, and was told the other's, with the same hash. Two passes:
// the hashes that were told are marked first.
#[tactic(auto, unfolding(crate::specs::Hashes::both_in))]
fn both_finished(file: &[u8], boxes: &Boxes, e: u16, by: Side, s: Session) -> bool
    ensures { result ≡ both_in file.now boxes.now e by s }
{
    let mut marks = [0u8; ROW_LIMIT];
    mark_told(file, boxes, &mut marks, other(by.role), by.from);
    agreed_any(file, boxes, &marks, e, by, s)
}

// The session that a row remembers, whose M is a PRF, and the secret of that M.
fn session_note(file: &[u8], row: u16) -> Option<(Session, u16)>
    ensures { result ≡ remembers file.now row }
{
    let n = forms::session_note(file, row)?;
    let p = forms::leaves::prf_of(file, n.m)?;
    let session = Session {
        sid: n.sid,
        a: n.a,
        b: n.b,
        m: n.m,
        na: p.na,
        nb: p.nb,
    };
    Some((session, p.secret))
}

// Rule 10: ClientAccepts.
#[tactic(auto, unfolding(crate::specs::Tests::client_accepts))]
pub fn client_accepts(file: &[u8], boxes: &Boxes, e: u16, event: Event) -> bool
    ensures { result ≡ client_accepts file.now (found file.now boxes.now)
        (both_in file.now boxes.now e) (heard_in event) }
{
    let Event::Notes(by, row) = event else {
        return false;
    };
    let Some((s, secret)) = session_note(file, row.0) else {
        return false;
    };
    let client = Side {
        role: Role::Client,
        from: s.a,
        to: s.b,
    };
    s.a == by.0
        && earlier::happened(file, boxes, Wanted::Noted(by.0, Note::Secret(s.b, secret)))
        && both_finished(file, boxes, e, client, s)
}

// Rule 11: ServerAccepts.
#[tactic(auto, unfolding(crate::specs::Tests::server_accepts))]
pub fn server_accepts(file: &[u8], boxes: &Boxes, e: u16, event: Event) -> bool
    ensures { result ≡ server_accepts file.now (found file.now boxes.now)
        (both_in file.now boxes.now e) (heard_in event) }
{
    let Event::Notes(by, row) = event else {
        return false;
    };
    let Some((s, secret)) = session_note(file, row.0) else {
        return false;
    };
    let server = Side {
        role: Role::Server,
        from: s.b,
        to: s.a,
    };
    let fits = s.b == by.0 && s.a != s.b;
    let sent = Wanted::Said(Who::To(by.0), What::Sent(by.0, secret));
    fits && earlier::happened(file, boxes, sent) && both_finished(file, boxes, e, server, s)
}
