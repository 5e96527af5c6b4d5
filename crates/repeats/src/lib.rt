// Rows that equal an earlier one: refusal 6.
#![tactic(auto)]

ghost use Rattle.std.specs.Prelude.{false, ◌≡◌, ◌≤◌, ◌<◌, ◌+◌, ◌↔◌, get_or, IsTrue};
ghost use Rattle.trace.specs.File.{row_limit};
ghost use Rattle.trace.specs.Rows.{fields_at};
ghost use Rattle.trace.specs.Tests.{repeated_row};
ghost use Rattle.laws.specs.First.{found};
ghost use Rattle.repeats.specs.Chain.{buckets, bucket_of, tag_of, unlinked, Chained, few_rows};

use trace::limits::{ROW_LIMIT, ROWS};
use trace::rows::{Fields, fields_at};

const BUCKETS: usize = 1024;

const HALF: u32 = 0x10000;

// A row's tag, and the next row of its bucket.
#[derive(Clone, Copy)]
struct Link {
    next: u16,
    tag: u32,
}

// Some first rows, chained by bucket. A bucket's head and a row's next are one more than a row's number, or 0 at the end.
#[derive(Drop)]
struct Chains {
    heads: [u16; BUCKETS],
    links: [Link; ROW_LIMIT],
}

// Odd factors spread the rows of a usual file over all buckets.
fn bucket(f: Fields) -> usize
    ensures { (result ≡ bucket_of f) × (result < buckets) }
{
    (usize::from(f.kind) * 97
        + usize::from(f.role) * 31
        + usize::from(f.first) * 7
        + usize::from(f.second) * 61
        + usize::from(f.third) * 523)
        % BUCKETS
}

// Two of the five numbers, as one: rows of a usual file that share a bucket rarely share both.
fn tag(f: Fields) -> u32
    ensures { result ≡ tag_of f }
{
    u32::from(f.first) + HALF * u32::from(f.second)
}

impl Chains {
    // Whether the row has these fields. It is read only where its tag is theirs.
    fn is(&self, file: &[u8], row: u16, f: Fields) -> bool
        requires in_range { row < row_limit }
        requires tag_kept { (get_or self.now.links row unlinked).tag ≡ tag_of (fields_at file.now row) }
        ensures { IsTrue result ↔ (fields_at file.now row ≡ f) }
    {
        self.links[usize::from(row)].tag == tag(f) && fields_at(file, row) == f
    }

    // Whether row r equals one of the rows below it, which are chained. If it does not, it is chained too.
    fn add(&mut self, file: &[u8], r: u16) -> bool
        requires in_range { r < row_limit }
        requires chained { Chained file.now self.old r }
        ensures repeated { result ≡ repeated_row file.now r }
        ensures chained { result ≡ false → Chained file.now self.new (r + 1) }
    {
        let f = fields_at(file, r);
        let h = bucket(f);
        let mut link = self.heads[h];
        while let Some(row) = link.checked_sub(1) {
            if self.is(file, row, f) {
                return true;
            }
            link = self.links[usize::from(row)].next;
        }
        self.links[usize::from(r)] = Link {
            next: self.heads[h],
            tag: tag(f),
        };
        self.heads[h] = r + 1;
        false
    }
}

// The lowest row that equals an earlier one. Earlier rows are chained by bucket, so few are compared. It is kept out of
// line, so that a file with a bad row is refused before any room is made for the chains.
#[inline(never)]
fn first_repeat(file: &[u8], rows: u16) -> Option<u16>
    requires { rows ≤ row_limit }
    ensures { result ≡ found (repeated_row file.now) rows }
{
    let mut chains = Chains {
        heads: [0; BUCKETS],
        links: [Link { next: 0, tag: 0 }; ROW_LIMIT],
    };
    for r in 0..rows {
        if chains.add(file, r) {
            return Some(r);
        }
    }
    None
}

// The same for any number of rows: of more than a file can have, the first count.
pub fn first_repeated_row(file: &[u8], rows: u16) -> Option<u16>
    ensures { result ≡ found (repeated_row file.now) (few_rows rows) }
{
    first_repeat(file, rows.min(ROWS))
}
