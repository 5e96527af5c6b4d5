// The shapes of messages that the rules name, read from rows: their parts, or None.
#![tactic(auto)]

pub mod chains;
pub mod leaves;

ghost use Rattle.std.specs.Prelude.{◌≡◌};
ghost use Rattle.forms.specs.Kinds.{server_in};
ghost use Rattle.forms.specs.Forms.{hello_of, reply_of, kept_of, signed_of, remembered_of, agreement_of, sealed_of, under_key, derived_of, verified_of};

use trace::{AUTHORITY, Role};

#[derive(Clone, Copy, PartialEq, Eq, Debug)]
pub struct Hello {
    pub agent: u16,
    pub na: u16,
    pub sid: u16,
    pub pa: u16,
}

#[derive(Clone, Copy, PartialEq, Eq, Debug)]
pub struct Reply {
    pub nb: u16,
    pub sid: u16,
    pub pb: u16,
}

#[derive(Clone, Copy, PartialEq, Eq, Debug)]
pub struct Kept {
    pub agent: u16,
    pub secret: u16,
}

#[derive(Clone, Copy, PartialEq, Eq, Debug)]
pub struct Signed {
    pub agent: u16,
    pub key: u16,
}

#[derive(Clone, Copy, PartialEq, Eq, Debug)]
pub struct Remembered {
    pub sid: u16,
    pub a: u16,
    pub b: u16,
    pub m: u16,
}

#[derive(Clone, Copy, PartialEq, Eq, Debug)]
pub struct Agreed {
    pub sid: u16,
    pub m: u16,
    pub na: u16,
    pub pa: u16,
    pub a: u16,
    pub nb: u16,
    pub pb: u16,
    pub b: u16,
}

#[derive(Clone, Copy, PartialEq, Eq, Debug)]
pub struct Sealed {
    pub role: Role,
    pub hash: u16,
    pub sid: u16,
    pub m: u16,
    pub na: u16,
    pub pa: u16,
    pub a: u16,
    pub nb: u16,
    pub pb: u16,
    pub b: u16,
}

#[derive(Clone, Copy, PartialEq, Eq, Debug)]
pub struct Verified {
    pub signer: u16,
    pub nb: u16,
    pub agent: u16,
    pub secret: u16,
}

// {Agent A, Na, SID, Pa}: the agent by its number, and else rows.
#[tactic(auto, unfolding(crate::specs::Forms::hello_of))]
pub fn client_hello(file: &[u8], r: u16) -> Option<Hello>
    ensures { result ≡ hello_of file.now r }
{
    let (agent, na, sid, pa) = chains::four_of(file, r)?;
    let agent = leaves::agent_of(file, agent)?;
    let fits = leaves::is_nonce(file, na)
        && leaves::is_number(file, sid)
        && leaves::is_number(file, pa);
    fits.then_some(Hello { agent, na, sid, pa })
}

// {Nb, SID, Pb}, by rows.
#[tactic(auto, unfolding(crate::specs::Forms::reply_of))]
pub fn server_hello(file: &[u8], r: u16) -> Option<Reply>
    ensures { result ≡ reply_of file.now r }
{
    let (nb, sid, pb) = chains::three_of(file, r)?;
    let fits = leaves::is_nonce(file, nb)
        && leaves::is_number(file, sid)
        && leaves::is_number(file, pb);
    fits.then_some(Reply { nb, sid, pb })
}

// {Agent B, PMS}: the agent by its number, the secret by its row.
#[tactic(auto, unfolding(crate::specs::Forms::kept_of))]
pub fn secret_note(file: &[u8], r: u16) -> Option<Kept>
    ensures { result ≡ kept_of file.now r }
{
    let (agent, secret) = leaves::pair_of(file, r)?;
    let agent = leaves::agent_of(file, agent)?;
    let fits = leaves::is_nonce(file, secret);
    fits.then_some(Kept { agent, secret })
}

// {Agent B, K} under the authority's private key: the agent by its number, the key by its row.
#[tactic(auto, unfolding(crate::specs::Forms::signed_of))]
pub fn certificate(file: &[u8], r: u16) -> Option<Signed>
    ensures { result ≡ signed_of file.now r }
{
    let c = leaves::crypt_of(file, r)?;
    let signer = leaves::private_of(file, c.key)?;
    let (agent, key) = leaves::pair_of(file, c.body)?;
    let agent = leaves::agent_of(file, agent)?;
    let fits = signer == AUTHORITY.0 && leaves::is_key(file, key);
    fits.then_some(Signed { agent, key })
}

// {SID, Agent A, Agent B, M}: the agents by their numbers, and else rows.
#[tactic(auto, unfolding(crate::specs::Forms::remembered_of))]
pub fn session_note(file: &[u8], r: u16) -> Option<Remembered>
    ensures { result ≡ remembered_of file.now r }
{
    let (sid, a, b, m) = chains::four_of(file, r)?;
    let a = leaves::agent_of(file, a)?;
    let b = leaves::agent_of(file, b)?;
    let fits = leaves::is_number(file, sid) && leaves::is_nonce(file, m);
    fits.then_some(Remembered { sid, a, b, m })
}

// Hash {SID, M, Na, Pa, Agent A, Nb, Pb, Agent B}: the agents by their numbers, and else rows.
#[tactic(auto, unfolding(crate::specs::Forms::agreement_of))]
pub fn agreement(file: &[u8], r: u16) -> Option<Agreed>
    ensures { result ≡ agreement_of file.now r }
{
    let h = leaves::hash_of(file, r)?;
    let (sid, m, na, rest) = chains::four_of(file, h)?;
    let (pa, rest) = leaves::pair_of(file, rest)?;
    let (a, nb, pb, b) = chains::four_of(file, rest)?;
    let a = leaves::agent_of(file, a)?;
    let b = leaves::agent_of(file, b)?;
    let fits = leaves::is_number(file, sid)
        && leaves::is_nonce(file, m)
        && leaves::is_nonce(file, na)
        && leaves::is_number(file, pa)
        && leaves::is_nonce(file, nb)
        && leaves::is_number(file, pb);
    fits.then_some(Agreed {
        sid,
        m,
        na,
        pa,
        a,
        nb,
        pb,
        b,
    })
}

// That hash under a session key of the same Na, Nb and M; `hash` is its row.
#[tactic(auto, unfolding(crate::specs::Forms::sealed_of))]
pub fn finished(file: &[u8], r: u16) -> Option<Sealed>
    ensures { result ≡ sealed_of file.now r }
{
    let c = leaves::crypt_of(file, r)?;
    let s = leaves::session_of(file, c.key)?;
    let g = agreement(file, c.body)?;
    let same = s.na == g.na && s.nb == g.nb && s.m == g.m;
    same.then_some(Sealed {
        role: s.role,
        hash: c.body,
        sid: g.sid,
        m: g.m,
        na: g.na,
        pa: g.pa,
        a: g.a,
        nb: g.nb,
        pb: g.pb,
        b: g.b,
    })
}

// Whether a row is a Crypt under a session key of that role, which every Finished is.
pub fn under_key(file: &[u8], r: u16, role: Role) -> bool
    ensures { result ≡ under_key file.now r (server_in role) }
{
    let Some(c) = leaves::crypt_of(file, r) else {
        return false;
    };
    let Some(s) = leaves::session_of(file, c.key) else {
        return false;
    };
    s.role == role
}

// {PRF(M, Na, Nb), a session key of the same Na, Nb and M}, of either role: the PRF's parts.
#[tactic(auto, unfolding(crate::specs::Forms::derived_of))]
pub fn spy_keys(file: &[u8], r: u16) -> Option<leaves::Prf>
    ensures { result ≡ derived_of file.now r }
{
    let (f, s) = leaves::pair_of(file, r)?;
    let f = leaves::prf_of(file, f)?;
    let s = leaves::session_of(file, s)?;
    let same = f.secret == s.m && f.na == s.na && f.nb == s.nb;
    same.then_some(f)
}

// Hash {Nb, Agent B, PMS} under a private key: signer and agent by their numbers, and else rows.
#[tactic(auto, unfolding(crate::specs::Forms::verified_of))]
pub fn cert_verify(file: &[u8], r: u16) -> Option<Verified>
    ensures { result ≡ verified_of file.now r }
{
    let c = leaves::crypt_of(file, r)?;
    let signer = leaves::private_of(file, c.key)?;
    let h = leaves::hash_of(file, c.body)?;
    let (nb, agent, secret) = chains::three_of(file, h)?;
    let agent = leaves::agent_of(file, agent)?;
    let fits = leaves::is_nonce(file, nb) && leaves::is_nonce(file, secret);
    fits.then_some(Verified {
        signer,
        nb,
        agent,
        secret,
    })
}
