// The questions for C and other languages: each reply is one number, which include/mirzhelo.h documents. cabi_c exports them.
#![tactic(auto)]

ghost use Rattle.std.specs.Prelude.{◌≡◌};
ghost use Rattle.cabi.specs.Codes.{refusal_code, verdict_code, answer_code};
ghost use Rattle.cabi.specs.Coded.{VerdictCoded, AnswerCoded, FaultCoded};

use judge::reply::Verdict;
use trace::Cause;

const HALF: u32 = 0x10000;

const ILLEGAL: u32 = 0x10000000;

const REFUSED: u32 = 0x20000000;

fn refusal_code(cause: Cause) -> u32
    ensures { result ≡ refusal_code cause }
{
    REFUSED + HALF * u32::from(trace::number(cause)) + u32::from(trace::place(cause))
}

fn verdict_code(verdict: Result<Verdict, Cause>) -> u32
    ensures { result ≡ verdict_code verdict }
{
    match verdict {
        Err(cause) => refusal_code(cause),
        Ok(Verdict::Illegal(n)) => ILLEGAL + u32::from(n),
        Ok(Verdict::Accepted(n)) => u32::from(n),
    }
}

fn answer_code(answer: Result<(), Cause>) -> u32
    ensures { result ≡ answer_code answer }
{
    match answer {
        Err(cause) => refusal_code(cause),
        Ok(()) => 0,
    }
}

// The verdict: a rule number for each event of the longest accepted beginning, and 0 for the others.
pub fn mz_verdict(file: &[u8], rules: &mut [u8]) -> u32
    ensures { VerdictCoded file.now rules.old result rules.new }
{
    verdict_code(judge::verdict(file, rules))
}

// The spy's knowledge: a mark for each row after the first n events.
pub fn mz_knowledge(file: &[u8], n: usize, marks: &mut [u8]) -> u32
    ensures { AnswerCoded file.now n marks.old result marks.new }
{
    answer_code(spy::knowledge(file, n, marks))
}

// Where the part at fault lies.
#[tactic(auto, using(judge::proofs::Faults::faulted_inside))]
pub fn mz_fault(file: &[u8]) -> u32
    ensures { FaultCoded file.now result }
{
    let span = judge::fault_span(file);
    (span.start as u32) + HALF * (span.size as u32)
}
