// Bytes of the file. A byte past the end reads as 0, so a reader needs no bound.
ghost use Rattle.std.specs.Prelude.{◌≡◌, ◌<◌, ℕ, List, set};
ghost use Rattle.std.specs.Int.{w64, to_le_bytes};
ghost use Rattle.trace.specs.File.{byte, word};
ghost use Rattle.trace.specs.Items.{ItemAt, far};

use super::limits::ITEM;

pub fn byte_at(file: &[u8], at: usize) -> u8
    ensures { result ≡ byte file.now at }
{
    file.get(at).map_or(0, |&b| b)
}

// A place past the end takes nothing.
pub fn put(bytes: &mut [u8], at: usize, byte: u8)
    ensures { bytes.new ≡ set bytes.old at byte }
{
    if at < bytes.len() {
        bytes[at] = byte;
    }
}

// Positions stay far below where the next one could wrap.
#[tactic(auto, unfolding(crate::specs::File::word))]
pub fn word_at(file: &[u8], at: usize) -> u16
    requires { at < far }
    ensures { result ≡ word file.now at }
{
    u16::from_le_bytes([byte_at(file, at), byte_at(file, at + 1)])
}

// The eight bytes of a row or an event that the file ends before, or in. A file that is not refused has none. They come
// as one number, so that a recursion that reads a row keeps no room on the stack for them.
#[cold]
fn padded(file: &[u8], at: usize) -> u64
    requires { at < far }
    ensures { ItemAt file.now at (to_le_bytes w64 result) }
{
    let mut item = [0; ITEM];
    for (k, b) in item.iter_mut().enumerate() {
        *b = byte_at(file, at + k);
    }
    u64::from_le_bytes(item)
}

// What is read from the eight bytes of a row or an event. One test of the bound serves all of them, and they are read
// in place: these are read most often.
#[inline(always)]
pub fn read_item<T, F: FnOnce([u8; ITEM]) -> T>(file: &[u8], at: usize, read: F) -> T
    requires in_range { at < far }
    requires callable { F.IsAlwaysCallable read }
    ensures { (item : List ℕ) × ItemAt file.now at item × F.post read item result }
{
    if let Some([a, b, c, d, e, f, g, h]) = file.get(at..at + ITEM) {
        read([*a, *b, *c, *d, *e, *f, *g, *h])
    } else {
        read(padded(file, at).to_le_bytes())
    }
}
