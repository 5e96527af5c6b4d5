// Rows: the five numbers of each, and what the row is.
ghost use Rattle.std.specs.Prelude.{◌≡◌};
ghost use Rattle.trace.specs.Rows.{fields_at, kind_at};
ghost use Rattle.trace.specs.Items.{fields_of};
ghost use Rattle.trace.specs.Kinds.{Decodes, role_of, row_of};

use super::limits::ITEM;
use super::places::row_place;
use super::{AgentNo, NonceValue, NumberValue, Role, Row, RowNo, bytes};

// The kinds of a row, in the order of their numbers.
#[derive(Clone, Copy, PartialEq, Eq, Debug)]
pub enum Kind {
    Agent,
    Number,
    Nonce,
    Prf,
    PublicKey,
    PrivateKey,
    SessionKey,
    Hash,
    Crypt,
    Pair,
}

// A number above 9, which names no kind.
#[derive(Clone, Copy, PartialEq, Eq, Debug)]
pub struct UnknownKind(pub u8);

impl TryFrom<u8> for Kind {
    type Error = UnknownKind;

    ghost try_from_gives = { Decodes };

    fn try_from(number: u8) -> Result<Self, UnknownKind> {
        match number {
            0 => Ok(Kind::Agent),
            1 => Ok(Kind::Number),
            2 => Ok(Kind::Nonce),
            3 => Ok(Kind::Prf),
            4 => Ok(Kind::PublicKey),
            5 => Ok(Kind::PrivateKey),
            6 => Ok(Kind::SessionKey),
            7 => Ok(Kind::Hash),
            8 => Ok(Kind::Crypt),
            9 => Ok(Kind::Pair),
            _ => Err(UnknownKind(number)),
        }
    }
}

#[derive(Clone, Copy, PartialEq, Eq, Debug)]
pub struct Fields {
    pub kind: u8,
    pub role: u8,
    pub first: u16,
    pub second: u16,
    pub third: u16,
}

#[tactic(auto, unfolding(crate::specs::File::word))]
fn fields_of(item: [u8; ITEM]) -> Fields
    ensures { result ≡ fields_of item }
{
    let [kind, role, a, b, c, d, e, f] = item;
    Fields {
        kind,
        role,
        first: u16::from_le_bytes([a, b]),
        second: u16::from_le_bytes([c, d]),
        third: u16::from_le_bytes([e, f]),
    }
}

// A row past the end of the file has zeros there.
#[tactic(auto, unfolding(crate::specs::File::word))]
pub fn fields_at(file: &[u8], r: u16) -> Fields
    ensures { result ≡ fields_at file.now r }
{
    bytes::read_item(file, row_place(r), fields_of)
}

pub fn kind_at(file: &[u8], r: u16) -> Result<Kind, UnknownKind>
    ensures { Decodes (kind_at file.now r) result }
{
    Kind::try_from(bytes::byte_at(file, row_place(r)))
}

fn role_of(role: u8) -> Role
    ensures { result ≡ role_of role }
{
    if role == 0 {
        Role::Client
    } else {
        Role::Server
    }
}

// What a row is. A kind above 9 reads as a Pair, and its row is refused.
#[tactic(auto, unfolding(crate::specs::Kinds::row_of))]
pub(crate) fn row_of(f: Fields) -> Row
    ensures { result ≡ row_of f }
{
    match Kind::try_from(f.kind) {
        Ok(Kind::Agent) => Row::Agent(AgentNo(f.first)),
        Ok(Kind::Number) => Row::Number(NumberValue(f.first)),
        Ok(Kind::Nonce) => Row::Nonce(NonceValue(f.first)),
        Ok(Kind::Prf) => Row::Prf(RowNo(f.first), RowNo(f.second), RowNo(f.third)),
        Ok(Kind::PublicKey) => Row::PublicKey(AgentNo(f.first)),
        Ok(Kind::PrivateKey) => Row::PrivateKey(AgentNo(f.first)),
        Ok(Kind::SessionKey) => Row::SessionKey(
            role_of(f.role),
            RowNo(f.first),
            RowNo(f.second),
            RowNo(f.third),
        ),
        Ok(Kind::Hash) => Row::Hash(RowNo(f.first)),
        Ok(Kind::Crypt) => Row::Crypt(RowNo(f.first), RowNo(f.second)),
        Ok(Kind::Pair) | Err(_) => Row::Pair(RowNo(f.first), RowNo(f.second)),
    }
}
