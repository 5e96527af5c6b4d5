// What each row has to hold: refusal 5.
#![tactic(auto)]

ghost use Rattle.std.specs.Prelude.{◌≡◌};
ghost use Rattle.trace.specs.Tests.{agent_line, value_line, nonce_below, key_below, three_nonces, prf_line, session_line, hash_line, crypt_line, pair_line, row_fits, bad_row};
ghost use Rattle.laws.specs.First.{found};

use trace::limits::AGENTS;
use trace::rows::{Fields, Kind, fields_at, kind_at};

fn agent_line(f: Fields) -> bool
    ensures { result ≡ agent_line f }
{
    (f.role == 0) & (f.first < AGENTS) & (f.second == 0) & (f.third == 0)
}

fn value_line(f: Fields) -> bool
    ensures { result ≡ value_line f }
{
    (f.role == 0) & (f.second == 0) & (f.third == 0)
}

fn nonce_below(file: &[u8], r: u16, x: u16) -> bool
    ensures { result ≡ nonce_below file.now r x }
{
    x < r && matches!(kind_at(file, x), Ok(Kind::Nonce | Kind::Prf))
}

fn key_below(file: &[u8], r: u16, x: u16) -> bool
    ensures { result ≡ key_below file.now r x }
{
    x < r
        && matches!(
            kind_at(file, x),
            Ok(Kind::PublicKey | Kind::PrivateKey | Kind::SessionKey)
        )
}

fn three_nonces(file: &[u8], r: u16, f: Fields) -> bool
    ensures { result ≡ three_nonces file.now r f }
{
    nonce_below(file, r, f.first) && nonce_below(file, r, f.second) && nonce_below(file, r, f.third)
}

fn prf_line(file: &[u8], r: u16, f: Fields) -> bool
    ensures { result ≡ prf_line file.now r f }
{
    f.role == 0 && three_nonces(file, r, f)
}

fn session_line(file: &[u8], r: u16, f: Fields) -> bool
    ensures { result ≡ session_line file.now r f }
{
    f.role <= 1 && three_nonces(file, r, f)
}

fn hash_line(r: u16, f: Fields) -> bool
    ensures { result ≡ hash_line r f }
{
    (f.role == 0) & (f.first < r) & (f.second == 0) & (f.third == 0)
}

fn crypt_line(file: &[u8], r: u16, f: Fields) -> bool
    ensures { result ≡ crypt_line file.now r f }
{
    (f.role == 0) & key_below(file, r, f.first) & (f.second < r) & (f.third == 0)
}

fn pair_line(r: u16, f: Fields) -> bool
    ensures { result ≡ pair_line r f }
{
    (f.role == 0) & (f.first < r) & (f.second < r) & (f.third == 0)
}

// Whether the row keeps its kind's line.
#[tactic(auto, unfolding(trace::specs::Tests::line_of))]
fn row_fits(file: &[u8], r: u16) -> bool
    ensures { result ≡ row_fits file.now r }
{
    let f = fields_at(file, r);
    match Kind::try_from(f.kind) {
        Ok(Kind::Agent | Kind::PublicKey | Kind::PrivateKey) => agent_line(f),
        Ok(Kind::Number | Kind::Nonce) => value_line(f),
        Ok(Kind::Prf) => prf_line(file, r, f),
        Ok(Kind::SessionKey) => session_line(file, r, f),
        Ok(Kind::Hash) => hash_line(r, f),
        Ok(Kind::Crypt) => crypt_line(file, r, f),
        Ok(Kind::Pair) => pair_line(r, f),
        Err(_) => false,
    }
}

// The lowest row that breaks its kind's line.
pub fn first_bad_row(file: &[u8], rows: u16) -> Option<u16>
    ensures { result ≡ found (bad_row file.now) rows }
{
    (0..rows).find(|&r| !row_fits(file, r))
}
