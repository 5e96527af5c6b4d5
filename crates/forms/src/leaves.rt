// One row by its kind: its parts, or None if it is of another.
ghost use Rattle.std.specs.Prelude.{◌≡◌};
ghost use Rattle.forms.specs.Kinds.{agent_of, public_of, private_of, hash_of, pair_of, crypt_of, prf_of, session_of, is_number, is_nonce, is_plain, is_key};

use trace::{Role, Row, RowNo};

#[derive(Clone, Copy, PartialEq, Eq, Debug)]
pub struct Crypt {
    pub key: u16,
    pub body: u16,
}

#[derive(Clone, Copy, PartialEq, Eq, Debug)]
pub struct Prf {
    pub secret: u16,
    pub na: u16,
    pub nb: u16,
}

#[derive(Clone, Copy, PartialEq, Eq, Debug)]
pub struct Session {
    pub role: Role,
    pub na: u16,
    pub nb: u16,
    pub m: u16,
}

// An agent's number.
#[tactic(auto, unfolding(crate::specs::Kinds::agent_of))]
pub fn agent_of(file: &[u8], r: u16) -> Option<u16>
    ensures { result ≡ agent_of file.now r }
{
    match trace::row_at(file, RowNo(r)) {
        Row::Agent(a) => Some(a.0),
        _ => None,
    }
}

// The agent of a public key.
#[tactic(auto, unfolding(crate::specs::Kinds::public_of))]
pub fn public_of(file: &[u8], r: u16) -> Option<u16>
    ensures { result ≡ public_of file.now r }
{
    match trace::row_at(file, RowNo(r)) {
        Row::PublicKey(a) => Some(a.0),
        _ => None,
    }
}

// The agent of a private key.
#[tactic(auto, unfolding(crate::specs::Kinds::private_of))]
pub fn private_of(file: &[u8], r: u16) -> Option<u16>
    ensures { result ≡ private_of file.now r }
{
    match trace::row_at(file, RowNo(r)) {
        Row::PrivateKey(a) => Some(a.0),
        _ => None,
    }
}

// The row that is hashed.
#[tactic(auto, unfolding(crate::specs::Kinds::hash_of))]
pub fn hash_of(file: &[u8], r: u16) -> Option<u16>
    ensures { result ≡ hash_of file.now r }
{
    match trace::row_at(file, RowNo(r)) {
        Row::Hash(x) => Some(x.0),
        _ => None,
    }
}

// Both sides of a pair.
#[tactic(auto, unfolding(crate::specs::Kinds::pair_of))]
pub fn pair_of(file: &[u8], r: u16) -> Option<(u16, u16)>
    ensures { result ≡ pair_of file.now r }
{
    match trace::row_at(file, RowNo(r)) {
        Row::Pair(x, y) => Some((x.0, y.0)),
        _ => None,
    }
}

#[tactic(auto, unfolding(crate::specs::Kinds::crypt_of))]
pub fn crypt_of(file: &[u8], r: u16) -> Option<Crypt>
    ensures { result ≡ crypt_of file.now r }
{
    match trace::row_at(file, RowNo(r)) {
        Row::Crypt(key, body) => Some(Crypt {
            key: key.0,
            body: body.0,
        }),
        _ => None,
    }
}

#[tactic(auto, unfolding(crate::specs::Kinds::prf_of))]
pub fn prf_of(file: &[u8], r: u16) -> Option<Prf>
    ensures { result ≡ prf_of file.now r }
{
    match trace::row_at(file, RowNo(r)) {
        Row::Prf(secret, na, nb) => Some(Prf {
            secret: secret.0,
            na: na.0,
            nb: nb.0,
        }),
        _ => None,
    }
}

#[tactic(auto, unfolding(crate::specs::Kinds::session_of))]
pub fn session_of(file: &[u8], r: u16) -> Option<Session>
    ensures { result ≡ session_of file.now r }
{
    match trace::row_at(file, RowNo(r)) {
        Row::SessionKey(role, na, nb, m) => Some(Session {
            role,
            na: na.0,
            nb: nb.0,
            m: m.0,
        }),
        _ => None,
    }
}

// A number, which anyone can guess.
#[tactic(auto, unfolding(crate::specs::Kinds::is_number))]
pub fn is_number(file: &[u8], r: u16) -> bool
    ensures { result ≡ is_number file.now r }
{
    matches!(trace::row_at(file, RowNo(r)), Row::Number(_))
}

// Plain, or of the pseudo-random function.
#[tactic(auto, unfolding(crate::specs::Kinds::is_nonce))]
pub fn is_nonce(file: &[u8], r: u16) -> bool
    ensures { result ≡ is_nonce file.now r }
{
    matches!(trace::row_at(file, RowNo(r)), Row::Nonce(_) | Row::Prf(..))
}

// A plain nonce.
#[tactic(auto, unfolding(crate::specs::Kinds::is_plain))]
pub fn is_plain(file: &[u8], r: u16) -> bool
    ensures { result ≡ is_plain file.now r }
{
    matches!(trace::row_at(file, RowNo(r)), Row::Nonce(_))
}

// Public, private, or of a session.
#[tactic(auto, unfolding(crate::specs::Kinds::is_key))]
pub fn is_key(file: &[u8], r: u16) -> bool
    ensures { result ≡ is_key file.now r }
{
    matches!(
        trace::row_at(file, RowNo(r)),
        Row::PublicKey(_) | Row::PrivateKey(_) | Row::SessionKey(..)
    )
}
