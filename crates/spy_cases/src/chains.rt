// The longest chains that a file holds: pairs of pairs, ciphertexts of ciphertexts, and keys that open the next key.
use super::files;
use trace::limits::{LONGEST_FILE, ROWS};
use trace::rows::Kind;

pub type File = [u8; LONGEST_FILE];

// The Spy alone; and with agent 3.
const SPY: u8 = 1;

const SPY_AND_3: u8 = 9;

const TOP: u16 = ROWS - 1;

// Row 0, then each row the pair of the row below with itself; the top is said.
pub fn pairs(bottom: Kind) -> File {
    let mut file = [0; LONGEST_FILE];
    files::put_header(&mut file, SPY, ROWS, 1);
    files::put_row(&mut file, 0, bottom, 10, 0, 0);
    for r in 1..ROWS {
        files::put_row(&mut file, r, Kind::Pair, r - 1, r - 1, 0);
    }
    files::put_says(&mut file, ROWS, 0, TOP);
    file
}

// The key of a nested ciphertext: agent 3's public key in row 0, or the session key in row 2.
fn nested_key(r: u16) -> u16 {
    (r % 2) * 2
}

// Rows 0 to 3 are two keys, the session key's nonce and the bottom; the others encrypt the row below.
fn nested(file: &mut [u8], bottom: Kind, events: u16) {
    files::put_header(file, SPY_AND_3, ROWS, events);
    files::put_row(file, 0, Kind::PublicKey, 3, 0, 0);
    files::put_row(file, 1, Kind::Nonce, 10, 0, 0);
    files::put_row(file, 2, Kind::SessionKey, 1, 1, 1);
    files::put_row(file, 3, bottom, 11, 0, 0);
    for r in 4..ROWS {
        files::put_row(file, r, Kind::Crypt, nested_key(r), r - 1, 0);
    }
}

// The outermost ciphertext is said, then the session key: what the key opens was there before it.
pub fn opened() -> File {
    let mut file = [0; LONGEST_FILE];
    nested(&mut file, Kind::Nonce, 2);
    files::put_says(&mut file, ROWS, 0, TOP);
    files::put_says(&mut file, ROWS, 1, 2);
    file
}

// Both keys are said, which makes every ciphertext of a Number; then the outermost is said.
pub fn made() -> File {
    let mut file = [0; LONGEST_FILE];
    nested(&mut file, Kind::Number, 3);
    files::put_says(&mut file, ROWS, 0, 0);
    files::put_says(&mut file, ROWS, 1, 2);
    files::put_says(&mut file, ROWS, 2, TOP);
    file
}

// Links: 8 nonces, then 508 session keys over them, then 507 ciphertexts, each of a key under its neighbour.
const FIRST_KEY: u16 = 8;

const LAST_KEY: u16 = 515;

const FIRST_LINK: u16 = 516;

pub const LINKS: u16 = 507;

pub const LINK_ROWS: u16 = 1023;

fn nonces(file: &mut [u8]) {
    for r in 0..FIRST_KEY {
        files::put_row(file, r, Kind::Nonce, r, 0, 0);
    }
}

// The key in row r is over the nonces that r spells in base 8.
fn session_keys(file: &mut [u8]) {
    for r in FIRST_KEY..FIRST_LINK {
        files::put_row(file, r, Kind::SessionKey, r / 64 % 8, r / 8 % 8, r % 8);
    }
}

// The key of a link lies above the key inside if the chain falls, else below it.
fn link_key(i: u16, above: bool) -> u16 {
    let key = FIRST_KEY + i % LINKS;
    if above { key + 1 } else { key }
}

fn put_link(file: &mut [u8], i: u16, falling: bool) {
    let r = FIRST_LINK + i % LINKS;
    files::put_row(
        file,
        r,
        Kind::Crypt,
        link_key(i, falling),
        link_key(i, !falling),
        0,
    );
    files::put_says(file, LINK_ROWS, i, r);
}

// The key that opens the first link of a chain, and with it all.
fn opening_key(falling: bool) -> u16 {
    if falling { LAST_KEY } else { FIRST_KEY }
}

// All the ciphertexts are said, then the key that opens one.
pub fn links(falling: bool) -> File {
    let mut file = [0; LONGEST_FILE];
    files::put_header(&mut file, SPY, LINK_ROWS, LINKS + 1);
    nonces(&mut file);
    session_keys(&mut file);
    for i in 0..LINKS {
        put_link(&mut file, i, falling);
    }
    files::put_says(&mut file, LINK_ROWS, LINKS, opening_key(falling));
    file
}
