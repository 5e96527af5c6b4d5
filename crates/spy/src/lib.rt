// The spy: what it knows and can make, after any number of events.
#![tactic(auto)]

pub mod made;

ghost use Rattle.std.specs.Prelude.{◌≡◌};
ghost use Rattle.closure.specs.Closure.{known_after};
ghost use Rattle.spy.specs.Knowledge.{Knows};
ghost use Rattle.spy.specs.Reply.{marks_after, answer_readable, bytes_readable};

use closure::NOTHING;
use trace::{Cause, EventNo};

// A mark for each row after the first n events. What is known stands in one place all along, and is never copied.
#[tactic(auto, using(closure::proofs::Folds::known_more))]
fn write(file: &[u8], n: u16, buffer: &mut [u8])
    ensures { buffer.new ≡ marks_after file.now n buffer.old }
{
    let mut known = NOTHING;
    known.see_start(file);
    for e in 0..n {
        known.see_event(file, EventNo(e));
    }
    made::write_marks(file, &known.rows, buffer, trace::row_count(file));
}

// The question, for a file that is readable.
fn answer_readable(file: &[u8], n: usize, buffer: &mut [u8]) -> Result<(), Cause>
    ensures value { result ≡ answer_readable file.now n buffer.old }
    ensures buffer_after { buffer.new ≡ bytes_readable file.now n buffer.old }
{
    let rows = trace::row_count(file);
    if buffer.len() < usize::from(rows) {
        return Err(Cause::ShortBuffer);
    }
    let events = trace::event_count(file);
    if usize::from(events) < n {
        return Err(Cause::TooManyEvents);
    }
    write(file, n as u16, buffer);
    Ok(())
}

// The knowledge question: a mark for each row after the first n events, legal or not.
pub fn knowledge(file: &[u8], n: usize, buffer: &mut [u8]) -> Result<(), Cause>
    ensures { Knows file.now n buffer.old result buffer.new }
{
    reading::read(file)?;
    answer_readable(file, n, buffer)
}
