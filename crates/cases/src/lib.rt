// Files for the test programs: the sample of document 01, and a file with a byte changed.
#![tactic(auto)]

ghost use Rattle.std.specs.Prelude.{◌≡◌, ◌%◌, set};
ghost use Rattle.cases.specs.Room.{sample_room, edited};

use trace::put;

pub mod print;

pub const ROOM: usize = 256;

// The bytes of the sample: its contents part, then each row and each event on a line.
const SAMPLE: [u8; ROOM] = *b"\
    \x01\0\0\0\x01\0\0\0\0\0\0\0\x14\0\x11\0\x9c\0\x06\0\
    \0\0\x02\0\0\0\0\0\
    \x02\0\x0a\0\0\0\0\0\
    \x01\0\x07\0\0\0\0\0\
    \x01\0\x01\0\0\0\0\0\
    \x09\0\x02\0\x03\0\0\0\
    \x09\0\x01\0\x04\0\0\0\
    \x09\0\0\0\x05\0\0\0\
    \x02\0\x0b\0\0\0\0\0\
    \x09\0\x07\0\x04\0\0\0\
    \0\0\x03\0\0\0\0\0\
    \x04\0\x03\0\0\0\0\0\
    \x09\0\x09\0\x0a\0\0\0\
    \x05\0\x01\0\0\0\0\0\
    \x08\0\x0c\0\x0b\0\0\0\
    \x02\0\x0c\0\0\0\0\0\
    \x09\0\x09\0\x0e\0\0\0\
    \x08\0\x0a\0\x0e\0\0\0\
    \0\x02\x03\0\x06\0\0\0\
    \0\x03\x02\0\x08\0\0\0\
    \0\x03\x02\0\x0d\0\0\0\
    \x01\x02\0\0\x0f\0\0\0\
    \0\x02\x03\0\x10\0\0\0\
    \0\0\x03\0\x10\0\0\0\
    \0\0\0\0\0\0\0\0\0\0\0\0\0\0\0\0\0\0\0\0\0\0\0\0\0\0\
    \0\0\0\0\0\0\0\0\0\0\0\0\0\0\0\0\0\0\0\0\0\0\0\0\0\0";

// The sample, and zeros behind it.
pub fn sample() -> [u8; ROOM]
    ensures { result ≡ sample_room }
{
    SAMPLE
}

// The file after these changes, each a place and its new byte.
#[tactic(auto, unfolding(crate::specs::Room::edited))]
pub fn with_edits(file: [u8; ROOM], edits: &[(u16, u16)]) -> [u8; ROOM]
    ensures { result ≡ edited file edits.now }
{
    let mut changed = file;
    for &(at, value) in edits {
        put(&mut changed, usize::from(at), (value % 256) as u8);
    }
    changed
}

// The file with one byte changed; a place past its end changes nothing.
#[tactic(auto, unfolding(crate::specs::Room::edited))]
pub fn with_byte(file: [u8; ROOM], at: u16, value: u16) -> [u8; ROOM]
    ensures { result ≡ set file at (value % 256) }
{
    with_edits(file, &[(at, value)])
}
