// The judge: whether the fourteen rules generate a trace.
#![tactic(auto)]

pub mod reply;

ghost use Rattle.std.specs.Prelude.{◌≡◌, Ok};
ghost use Rattle.trace.specs.Reading.{reading};
ghost use Rattle.judge.specs.Reply.{verdict_readable, rules_readable};
ghost use Rattle.judge.specs.Judged.{Judged};
ghost use Rattle.judge.specs.Faulted.{Faulted, FaultPart};

use reply::Verdict;
use trace::limits::EVENT_LIMIT;
use trace::{Cause, EventNo, Span};

// The question, for a file that is readable.
fn verdict_readable(file: &[u8], rules: &mut [u8]) -> Result<Verdict, Cause>
    ensures value { result ≡ verdict_readable file.now rules.old }
    ensures rules_after { rules.new ≡ rules_readable file.now rules.old }
{
    let events = trace::event_count(file);
    if rules.len() < usize::from(events) {
        return Err(Cause::ShortBuffer);
    }
    walk::clear(rules, events);
    let n = walk::walk_events(file, rules);
    let stopped = n < events;
    if stopped {
        Ok(Verdict::Illegal(n))
    } else {
        Ok(Verdict::Accepted(n))
    }
}

// The verdict question: a rule number for each event of the longest accepted beginning, and 0 for the others.
pub fn verdict(file: &[u8], rules: &mut [u8]) -> Result<Verdict, Cause>
    ensures { Judged file.now rules.old result rules.new }
{
    reading::read(file)?;
    verdict_readable(file, rules)
}

// Of a file that is readable: the event after the longest accepted beginning.
fn illegal_span(file: &[u8]) -> Span
    requires { reading file.now ≡ Ok tt }
    ensures { Faulted file.now result }
{
    let mut rules = [0u8; EVENT_LIMIT];
    let n = walk::walk_events(file, &mut rules);
    if n < trace::event_count(file) {
        return trace::event_span(file, EventNo(n));
    }
    trace::no_span()
}

// Where the part at fault lies, or the empty part at byte 0.
#[tactic(auto, using(crate::proofs::Faults::faulted_refused))]
pub fn fault_span(file: &[u8]) -> Span
    ensures { Faulted file.now result }
{
    match reading::read(file) {
        Err(cause) => trace::span_at_fault(file, cause),
        Ok(()) => illegal_span(file),
    }
}

// The third question: the part of the file that is at fault, or no part.
#[tactic(auto, using(crate::proofs::Faults::fault_part))]
pub fn fault(file: &[u8]) -> &[u8]
    ensures { FaultPart file.entry result }
{
    trace::part(file, fault_span(file))
}
