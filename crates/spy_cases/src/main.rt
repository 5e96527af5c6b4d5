// The knowledge question: the cases of document 01 beside the sample, the refusals in their order, and long chains.
#![tactic(auto)]

mod chains;
mod files;

use cases::print;
use chains::{LINK_ROWS, LINKS};
use std::io;
use trace::Cause;
use trace::limits::{ROW_LIMIT, ROWS};
use trace::rows::Kind;

// What of the sample is asked about: its first bytes, after changes of a place to a byte; n; and the room that is lent.
#[derive(Clone, Copy)]
struct Case {
    len: u8,
    edits: &'static [(u16, u16)],
    n: usize,
    room: usize,
}

const SAMPLE: Case = Case {
    len: 204,
    edits: &[],
    n: 6,
    room: 19,
};

const CASES: [Case; 27] = [
    // the sample after each number of events
    Case { n: 0, ..SAMPLE },
    Case { n: 1, ..SAMPLE },
    Case { n: 2, ..SAMPLE },
    Case { n: 3, ..SAMPLE },
    Case { n: 4, ..SAMPLE },
    Case { n: 5, ..SAMPLE },
    // P8
    SAMPLE,
    // P9: agent 3 is compromised
    Case {
        edits: &[(4, 9)],
        ..SAMPLE
    },
    // agent 3 is compromised, and nothing is seen
    Case {
        edits: &[(4, 9)],
        n: 0,
        ..SAMPLE
    },
    // agent 2 is compromised: before its note, and after it
    Case {
        edits: &[(4, 5)],
        n: 3,
        ..SAMPLE
    },
    Case {
        edits: &[(4, 5)],
        n: 4,
        ..SAMPLE
    },
    // row 12 is the Spy's private key, which it has
    Case {
        edits: &[(118, 0)],
        n: 0,
        ..SAMPLE
    },
    // row 12 is agent 3's private key, and the last event says the public one: before it, and after it
    Case {
        edits: &[(118, 3), (200, 10)],
        n: 5,
        ..SAMPLE
    },
    Case {
        edits: &[(118, 3), (200, 10)],
        ..SAMPLE
    },
    // row 4 is a hash of row 2: made before it is said, and never opened after
    Case {
        edits: &[(52, 7), (56, 0)],
        n: 0,
        ..SAMPLE
    },
    Case {
        edits: &[(52, 7), (56, 0)],
        n: 1,
        ..SAMPLE
    },
    // room for the rows and no more
    Case { room: 17, ..SAMPLE },
    // n = 7; n = 65,538, which is 2 in sixteen bits; the greatest n
    Case { n: 7, ..SAMPLE },
    Case { n: 65538, ..SAMPLE },
    Case {
        n: usize::MAX,
        ..SAMPLE
    },
    // a byte too little; none; and n = 7 too: 8 before 9
    Case { room: 16, ..SAMPLE },
    Case { room: 0, ..SAMPLE },
    Case {
        n: 7,
        room: 16,
        ..SAMPLE
    },
    // a file that is refused, a byte too little and n = 7: the file's refusal
    Case {
        len: 19,
        n: 7,
        room: 16,
        ..SAMPLE
    },
    Case {
        edits: &[(20, 10)],
        n: 7,
        room: 16,
        ..SAMPLE
    },
    Case {
        edits: &[(46, 7)],
        n: 7,
        room: 16,
        ..SAMPLE
    },
    Case {
        edits: &[(180, 2)],
        n: 7,
        room: 16,
        ..SAMPLE
    },
];

const FRESH: u8 = 7;

fn print_answer(rt: &impl Print, answer: Result<(), Cause>) -> io::Result<()> {
    if let Err(cause) = answer {
        print!(rt; " refused ")?;
        print::refusal(rt, cause)?;
    }
    Ok(())
}

fn print_case(rt: &impl Print, case: usize) -> io::Result<()> {
    print!(rt; "{case}:")
}

// A file: the refusal, if it is one, and the whole buffer.
fn ask(rt: &impl Print, file: &[u8], n: usize, lent: &mut [u8]) -> io::Result<()> {
    print_answer(rt, spy::knowledge(file, n, lent))?;
    print::bytes(rt, lent)?;
    println!(rt)
}

fn ask_sample(rt: &impl Print, case: &Case) -> io::Result<()> {
    let file = cases::with_edits(cases::sample(), case.edits);
    let mut lent = [FRESH; 32];
    let room = case.room.min(lent.len());
    ask(
        rt,
        &file[..usize::from(case.len)],
        case.n,
        &mut lent[..room],
    )
}

fn ask_samples(rt: &impl Print) -> io::Result<()> {
    for (i, case) in CASES.iter().enumerate() {
        print_case(rt, i)?;
        ask_sample(rt, case)?;
    }
    Ok(())
}

fn count(marks: &[u8], mark: u8) -> usize {
    marks.iter().filter(|&&m| m == mark).count()
}

fn print_counts(rt: &impl Print, marks: &[u8]) -> io::Result<()> {
    for mark in [2, 1, 0] {
        let found = count(marks, mark);
        print!(rt; " {found}")?;
    }
    Ok(())
}

// A long file: how many rows are marked 2, 1 and 0, and the bytes past the rows.
fn print_long(rt: &impl Print, marks: &[u8], rows: u16) -> io::Result<()> {
    let end = usize::from(rows).min(marks.len());
    print_counts(rt, &marks[..end])?;
    print::bytes(rt, &marks[end..])?;
    println!(rt)
}

// What is known after n events.
fn ask_after(rt: &impl Print, file: &[u8], rows: u16, n: u16) -> io::Result<()> {
    let mut marks = [FRESH; ROW_LIMIT + 2];
    print_answer(rt, spy::knowledge(file, usize::from(n), &mut marks))?;
    print_long(rt, &marks, rows)
}

// A long file: what is known after each number of events from the first asked about.
fn ask_long(
    rt: &impl Print,
    case: usize,
    file: &[u8],
    rows: u16,
    first: u16,
    events: u16,
) -> io::Result<()> {
    let size = files::length_of(rows, events).min(file.len());
    for n in first..=events {
        print_case(rt, case)?;
        ask_after(rt, &file[..size], rows, n)?;
    }
    Ok(())
}

fn main(rt: HostRuntime) -> io::Result<()> {
    ask_samples(&rt)?;
    ask_long(&rt, 27, &chains::pairs(Kind::Nonce), ROWS, 0, 1)?;
    ask_long(&rt, 28, &chains::pairs(Kind::Number), ROWS, 0, 1)?;
    ask_long(&rt, 29, &chains::opened(), ROWS, 0, 2)?;
    ask_long(&rt, 30, &chains::made(), ROWS, 0, 3)?;
    // before the last event, and after it
    ask_long(&rt, 31, &chains::links(true), LINK_ROWS, LINKS, LINKS + 1)?;
    ask_long(&rt, 32, &chains::links(false), LINK_ROWS, LINKS, LINKS + 1)
}
