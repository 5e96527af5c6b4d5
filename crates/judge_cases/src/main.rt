// The verdict and the part at fault: the cases of document 01 beside the sample, and the refusals in their order.
#![tactic(auto)]

use cases::print;
use judge::reply::Verdict;
use std::io;
use trace::{Cause, put};

// An event over the sample's rows: who says which row to whom, or who notes which.
#[derive(Clone, Copy)]
enum Event {
    Says(u8, u8, u8),
    Notes(u8, u8),
}

// The sample's events.
const HELLO: Event = Event::Says(2, 3, 6);

const REPLY: Event = Event::Says(3, 2, 8);

const CERTIFICATE: Event = Event::Says(3, 2, 13);

const NOTE: Event = Event::Notes(2, 15);

const MESSAGE: Event = Event::Says(2, 3, 16);

const SPY_MESSAGE: Event = Event::Says(0, 3, 16);

// The Spy says the secret, notes it, and says its own name to itself.
const SPY_SECRET: Event = Event::Says(0, 3, 14);

const SPY_NOTE: Event = Event::Notes(0, 15);

const SPY_AGENT: Event = Event::Says(0, 0, 0);

const HELLO_TO_ITSELF: Event = Event::Says(2, 2, 6);

const CERTIFICATE_TO_SPY: Event = Event::Says(3, 0, 13);

// Over the sample's rows: the first bytes of a file with these compromised agents and these events, after changes of a place to a byte;
// and the room that is lent.
#[derive(Clone, Copy)]
struct Case {
    len: u8,
    set: u8,
    events: &'static [Event],
    edits: &'static [(u16, u16)],
    room: usize,
}

const P2: Case = Case {
    len: 204,
    set: 1,
    events: &[HELLO, REPLY, CERTIFICATE, NOTE, MESSAGE, SPY_MESSAGE],
    edits: &[],
    room: 8,
};

const CASES: [Case; 34] = [
    // P1
    Case {
        len: 20,
        events: &[],
        room: 2,
        edits: &[(14, 0), (16, 20)],
        ..P2
    },
    // P2
    P2,
    // P3
    Case {
        len: 188,
        events: &[HELLO, REPLY, CERTIFICATE, NOTE],
        ..P2
    },
    // P4
    Case {
        events: &[HELLO, REPLY, CERTIFICATE, MESSAGE, NOTE, SPY_MESSAGE],
        ..P2
    },
    // P5
    Case {
        len: 212,
        events: &[HELLO, REPLY, CERTIFICATE, NOTE, MESSAGE, SPY_MESSAGE, HELLO],
        ..P2
    },
    // P6
    Case {
        len: 196,
        events: &[HELLO, REPLY, NOTE, MESSAGE, SPY_MESSAGE],
        ..P2
    },
    // P7, and with set 9
    Case {
        events: &[HELLO, REPLY, CERTIFICATE, NOTE, MESSAGE, SPY_SECRET],
        ..P2
    },
    Case {
        set: 9,
        events: &[HELLO, REPLY, CERTIFICATE, NOTE, MESSAGE, SPY_SECRET],
        ..P2
    },
    // P10
    Case {
        len: 164,
        events: &[HELLO_TO_ITSELF],
        ..P2
    },
    // set 0, set 3
    Case { set: 0, ..P2 },
    Case { set: 3, ..P2 },
    // 19 bytes
    Case { len: 19, ..P2 },
    // row count 1,025
    Case {
        edits: &[(14, 1), (15, 4)],
        ..P2
    },
    // row 3 made equal to row 2
    Case {
        edits: &[(46, 7)],
        ..P2
    },
    // a buffer of 5 bytes, of 6, of none
    Case { room: 5, ..P2 },
    Case { room: 6, ..P2 },
    Case { room: 0, ..P2 },
    // no event, and no room
    Case {
        len: 156,
        events: &[],
        room: 0,
        ..P2
    },
    // version 2; bytes 2 and 3 not zero
    Case {
        edits: &[(0, 2)],
        ..P2
    },
    Case {
        edits: &[(2, 1)],
        ..P2
    },
    // a byte more than the contents part says
    Case { len: 205, ..P2 },
    // row 2 of kind 10; the Agent 64; a reference to the row itself
    Case {
        edits: &[(36, 10)],
        ..P2
    },
    Case {
        edits: &[(22, 64)],
        ..P2
    },
    Case {
        edits: &[(54, 4)],
        ..P2
    },
    // event 3 of kind 2; row 17, which does not exist, in event 5
    Case {
        edits: &[(180, 2)],
        ..P2
    },
    Case {
        edits: &[(200, 17)],
        ..P2
    },
    // two faults: row 3 equal to row 2, and event 0 of kind 2: the lower number
    Case {
        edits: &[(46, 7), (156, 2)],
        ..P2
    },
    // a refused file and a short buffer: the file's refusal
    Case {
        room: 5,
        edits: &[(46, 7)],
        ..P2
    },
    // the secret repeated after the first exchange: illegal at the note
    Case {
        len: 220,
        events: &[
            HELLO,
            REPLY,
            CERTIFICATE,
            NOTE,
            MESSAGE,
            NOTE,
            MESSAGE,
            SPY_AGENT,
        ],
        ..P2
    },
    // an event between note and message
    Case {
        len: 212,
        events: &[
            HELLO,
            REPLY,
            CERTIFICATE,
            NOTE,
            CERTIFICATE,
            MESSAGE,
            SPY_MESSAGE,
        ],
        ..P2
    },
    // the certificate again, and a replay of the hello by the Spy
    Case {
        events: &[HELLO, CERTIFICATE, CERTIFICATE, REPLY, NOTE, MESSAGE],
        ..P2
    },
    // the Spy exchanges keys as itself, with its certificate and without
    Case {
        len: 180,
        events: &[CERTIFICATE_TO_SPY, SPY_NOTE, SPY_MESSAGE],
        ..P2
    },
    Case {
        len: 172,
        events: &[SPY_NOTE, SPY_MESSAGE],
        ..P2
    },
    // rows without events
    Case {
        len: 156,
        events: &[],
        ..P2
    },
];

const FRESH: u8 = 99;

fn print_verdict(rt: &impl Print, verdict: Result<Verdict, Cause>) -> io::Result<()> {
    match verdict {
        Err(cause) => {
            print!(rt; " refused ")?;
            print::refusal(rt, cause)
        }
        Ok(Verdict::Illegal(n)) => print!(rt; " illegal {n}"),
        Ok(Verdict::Accepted(n)) => print!(rt; " accepted {n}"),
    }
}

// An event's number is a byte, so that no place overflows.
fn put_event(file: &mut [u8], e: u8, event: Event) {
    let at = 156 + 8 * usize::from(e);
    let (kind, agent, receiver, row) = match event {
        Event::Says(agent, receiver, row) => (0, agent, receiver, row),
        Event::Notes(agent, row) => (1, agent, 0, row),
    };
    put(file, at, kind);
    put(file, at + 1, agent);
    put(file, at + 2, receiver);
    put(file, at + 4, row);
}

fn put_events(file: &mut [u8], events: &[Event]) {
    for (e, event) in (0..u8::MAX).zip(events) {
        put_event(file, e, *event);
    }
}

fn put_header(file: &mut [u8], case: &Case) {
    put(file, 4, case.set);
    put(file, 18, case.events.len().min(255) as u8);
}

// The verdict, the whole buffer, and the part at fault.
fn ask(rt: &impl Print, file: &[u8], lent: &mut [u8]) -> io::Result<()> {
    print_verdict(rt, judge::verdict(file, lent))?;
    print!(rt; " |")?;
    print::bytes(rt, lent)?;
    print!(rt; " |")?;
    print::bytes(rt, judge::fault(file))?;
    println!(rt)
}

fn ask_case(rt: &impl Print, case: &Case) -> io::Result<()> {
    let mut sample = cases::sample();
    put_events(&mut sample, case.events);
    put_header(&mut sample, case);
    let file = cases::with_edits(sample, case.edits);
    let mut lent = [FRESH; 8];
    let room = case.room.min(lent.len());
    ask(rt, &file[..usize::from(case.len)], &mut lent[..room])
}

fn main(rt: HostRuntime) -> io::Result<()> {
    for (i, case) in CASES.iter().enumerate() {
        print!(rt; "{i}:")?;
        ask_case(&rt, case)?;
    }
    Ok(())
}
