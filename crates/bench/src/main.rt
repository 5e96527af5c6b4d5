// The bench's small program: judges the trace on standard input, and prints the verdict.
#![tactic(auto)]

ghost use Rattle.std.specs.Prelude.{◌≤◌, ◌<◌, length, take, IfOk, OnOk};
ghost use Rattle.std.specs.Io.KnownBytes.{Consumes, IsAtEnd};
ghost use Rattle.bench.specs.Answered.{Answers};

use report::TEXT_ROOM;
use std::io;
use std::io::{Read, Write};
use trace::limits::LONGEST_FILE;

// Reads until the buffer is full or the input ends, and counts the bytes read.
fn read_full<R: Read>(input: &mut R, buffer: &mut [u8]) -> io::Result<usize>
    ensures within { IfOk result (λ n. n ≤ length buffer.new) }
    ensures read { IfOk result (λ n. Consumes (R.remaining input.old) (R.remaining input.new) (take n buffer.new)) }
    ensures ended { IfOk result (λ n. n < length buffer.new → IsAtEnd (R.remaining input.new)) }
{
    let mut size: usize = 0;
    while size < buffer.len() {
        let n = input.read(&mut buffer[size..])?;
        if n == 0 {
            break;
        }
        size += n;
    }
    Ok(size)
}

// Judges what the input gives, and prints the verdict's text.
fn answer<R: Read, W: Write>(input: &mut R, output: &mut W) -> io::Result<()>
    ensures { OnOk result (Answers (R.remaining input.old) (W.contents output.old) (W.contents output.new)) }
{
    // one byte more than the longest file
    let mut file = [0u8; LONGEST_FILE + 1];
    let size = read_full(input, &mut file)?;
    let mut out = [0u8; TEXT_ROOM];
    let n = report::report(&file[..size], &mut out);
    output.write_all(&out[..n])
}

fn main(rt: HostRuntime) -> io::Result<()> {
    answer(&mut rt.stdin(), &mut rt.stdout())
}
