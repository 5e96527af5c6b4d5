// The cases of document 01 that concern the file: the sample with up to four bytes changed, read, with the part at fault.
#![tactic(auto)]

use cases::print;
use std::io;
use trace::Cause;

// A length, and what is changed: each a place and its new byte.
const CASES: [(u8, &[(u16, u16)]); 89] = [
    // the sample
    (204, &[]),
    // no byte at all
    (0, &[]),
    // 19 bytes
    (19, &[]),
    // 20 bytes: the rows are missing
    (20, &[]),
    // version 2
    (204, &[(0, 2)]),
    // version 257
    (204, &[(1, 1)]),
    // byte 2 not zero
    (204, &[(2, 1)]),
    // byte 3 not zero
    (204, &[(3, 1)]),
    // set 0: the Spy is not compromised
    (204, &[(4, 0)]),
    // set 3: the authority is compromised
    (204, &[(4, 3)]),
    // set 9: agents 0 and 3
    (204, &[(4, 9)]),
    // agent 63 compromised too
    (204, &[(11, 128)]),
    // 1,025 rows
    (204, &[(14, 1), (15, 4)]),
    // 513 events
    (204, &[(18, 1), (19, 2)]),
    // rows at 21
    (204, &[(12, 21)]),
    // events at 157
    (204, &[(16, 157)]),
    // one row fewer
    (204, &[(14, 16)]),
    // one event fewer
    (204, &[(18, 5)]),
    // one byte fewer
    (203, &[]),
    // one byte more
    (205, &[]),
    // kind 10
    (204, &[(20, 10)]),
    // kind 255
    (204, &[(148, 255)]),
    // Agent 63
    (204, &[(94, 63)]),
    // Agent 64
    (204, &[(94, 64)]),
    // Agent 258
    (204, &[(23, 1)]),
    // Agent: role
    (204, &[(21, 1)]),
    // Agent: second field
    (204, &[(24, 1)]),
    // Agent: third field
    (204, &[(26, 1)]),
    // Number: role
    (204, &[(37, 1)]),
    // Number: second field
    (204, &[(40, 1)]),
    // Number: third field
    (204, &[(43, 1)]),
    // Nonce: role
    (204, &[(29, 1)]),
    // Nonce: second field
    (204, &[(33, 1)]),
    // Nonce: third field
    (204, &[(34, 1)]),
    // PRF 1 14 7
    (204, &[(148, 3), (150, 1), (154, 7)]),
    // PRF: role
    (204, &[(148, 3), (149, 1), (150, 1), (154, 7)]),
    // PRF of an Agent
    (204, &[(148, 3), (150, 1)]),
    // PRF of a key
    (204, &[(148, 3), (154, 7)]),
    // PRF of itself
    (204, &[(148, 3), (150, 1), (154, 16)]),
    // PRF of a Number
    (204, &[(148, 3), (150, 1), (152, 2), (154, 7)]),
    // public key: agent 64
    (204, &[(102, 64)]),
    // public key: role
    (204, &[(101, 1)]),
    // public key: second field
    (204, &[(104, 1)]),
    // public key: third field
    (204, &[(106, 1)]),
    // private key: agent 64
    (204, &[(118, 64)]),
    // private key: role
    (204, &[(117, 1)]),
    // private key: third field
    (204, &[(122, 1)]),
    // client session key 1 14 7
    (204, &[(148, 6), (150, 1), (154, 7)]),
    // server session key 1 14 7
    (204, &[(148, 6), (149, 1), (150, 1), (154, 7)]),
    // session key: role 2
    (204, &[(148, 6), (149, 2), (150, 1), (154, 7)]),
    // session key of a Pair
    (204, &[(148, 6), (150, 1), (154, 8)]),
    // Hash 10
    (204, &[(148, 7), (152, 0)]),
    // Hash of itself
    (204, &[(148, 7), (150, 16), (152, 0)]),
    // Hash: role
    (204, &[(148, 7), (149, 1), (152, 0)]),
    // Hash: second field
    (204, &[(148, 7)]),
    // Hash: third field
    (204, &[(148, 7), (152, 0), (154, 1)]),
    // Crypt under a Pair
    (204, &[(126, 11)]),
    // Crypt under a Nonce
    (204, &[(126, 7)]),
    // Crypt under itself
    (204, &[(126, 13)]),
    // Crypt of itself
    (204, &[(128, 13)]),
    // Crypt of a later row
    (204, &[(128, 14)]),
    // Crypt: role
    (204, &[(125, 1)]),
    // Crypt: third field
    (204, &[(130, 1)]),
    // Pair of itself, left
    (204, &[(54, 4)]),
    // Pair of itself, right
    (204, &[(56, 4)]),
    // Pair of a later row
    (204, &[(56, 5)]),
    // Pair: role
    (204, &[(53, 1)]),
    // Pair: third field
    (204, &[(58, 1)]),
    // two bad rows: the lowest
    (204, &[(92, 10), (44, 10)]),
    // row 3 made equal to row 2
    (204, &[(46, 7)]),
    // row 9 made equal to row 0
    (204, &[(94, 2)]),
    // two repeated rows: the lowest
    (204, &[(94, 2), (46, 7)]),
    // a repeated row 3 and a bad row 9: 5 before 6
    (204, &[(46, 7), (92, 10)]),
    // event of kind 2
    (204, &[(156, 2)]),
    // sender 64
    (204, &[(157, 64)]),
    // receiver 64
    (204, &[(158, 64)]),
    // byte 3 of an event
    (204, &[(159, 1)]),
    // row 17
    (204, &[(160, 17)]),
    // row 262
    (204, &[(161, 1)]),
    // byte 6 of an event
    (204, &[(202, 1)]),
    // byte 7 of an event
    (204, &[(203, 1)]),
    // a note with a receiver
    (204, &[(182, 1)]),
    // a note of agent 64
    (204, &[(181, 64)]),
    // two bad events: the lowest
    (204, &[(188, 2), (172, 2)]),
    // a repeated row 3 and a bad event 0: 6 before 7
    (204, &[(46, 7), (156, 2)]),
    // 19 bytes of version 2: 1 before 2
    (19, &[(0, 2)]),
    // version 2 and set 0: 2 before 3
    (204, &[(0, 2), (4, 0)]),
    // set 0 and 1,025 rows: 3 before 4
    (204, &[(4, 0), (14, 1), (15, 4)]),
    // one byte more and a bad row: 4 before 5
    (205, &[(20, 10)]),
];

fn print_refusal(rt: &impl Print, file: &[u8], cause: Cause) -> io::Result<()> {
    print::refusal(rt, cause)?;
    print!(rt; ":")?;
    print::bytes(rt, trace::part(file, trace::span_at_fault(file, cause)))?;
    println!(rt)
}

fn run(rt: &impl Print, file: &[u8]) -> io::Result<()> {
    match reading::read(file) {
        Err(cause) => print_refusal(rt, file, cause),
        Ok(()) => println!(rt; "readable"),
    }
}

fn main(rt: HostRuntime) -> io::Result<()> {
    for &(len, edits) in &CASES {
        let file = cases::with_edits(cases::sample(), edits);
        run(&rt, &file[..usize::from(len)])?;
    }
    Ok(())
}
