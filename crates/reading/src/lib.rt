// Refusals 1 to 7: the lowest number applies.
#![tactic(auto)]

mod header;

ghost use Rattle.std.specs.Prelude.{◌≡◌, ◌≤◌};
ghost use Rattle.trace.specs.File.{row_limit};
ghost use Rattle.trace.specs.Reading.{read_items, reading};

use trace::header::header_of;
use trace::limits::ROWS_AT;
use trace::{Cause, EventNo, RowNo};

// The rows and events of a file whose contents part is right. Kept apart, so that what the first bytes refuse is
// refused before any room is made for the rows.
#[inline(never)]
#[tactic(auto, using(repeats::proofs::Chain::first_few), unfolding(trace::specs::Reading::read_items, laws::specs::First::found))]
fn read_items(file: &[u8], rows: u16, events: u16) -> Result<(), Cause>
    requires { rows ≤ row_limit }
    ensures { result ≡ read_items file.now rows events }
{
    if let Some(bad) = row_lines::first_bad_row(file, rows) {
        return Err(Cause::BadRow(RowNo(bad)));
    }
    if let Some(repeated) = repeats::first_repeated_row(file, rows) {
        return Err(Cause::RepeatedRow(RowNo(repeated)));
    }
    if let Some(event) = event_lines::first_bad_event(file, rows, events) {
        return Err(Cause::BadEvent(EventNo(event)));
    }
    Ok(())
}

// Refused with its cause and place, or readable.
#[tactic(auto, unfolding(trace::specs::Reading::reading))]
pub fn read(file: &[u8]) -> Result<(), Cause>
    ensures { result ≡ reading file.now }
{
    let too_short = file.len() < ROWS_AT;
    if too_short {
        return Err(Cause::TooShort);
    }
    let h = header_of(file);
    if header::wrong_version(h) {
        return Err(Cause::WrongVersion);
    }
    if header::wrong_set(file) {
        return Err(Cause::WrongSet);
    }
    if header::wrong_contents(h, file.len()) {
        return Err(Cause::WrongContents);
    }
    read_items(file, h.rows, h.events)
}
