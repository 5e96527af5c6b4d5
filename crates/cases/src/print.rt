// What the test programs print alike.
use std::io;
use trace::Cause;

// Each byte after a space.
pub fn bytes(rt: &impl Print, bytes: &[u8]) -> io::Result<()> {
    for &b in bytes {
        print!(rt; " {b}")?;
    }
    Ok(())
}

// The refusal's number and its place.
pub fn refusal(rt: &impl Print, cause: Cause) -> io::Result<()> {
    let number = trace::number(cause);
    let place = trace::place(cause);
    print!(rt; "{number} {place}")
}
