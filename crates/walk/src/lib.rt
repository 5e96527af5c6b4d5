// The walk over the events: the lowest rule that fits each, else rule 6 on two, else the end.
#![tactic(auto)]

mod fit;

ghost use Rattle.std.specs.Prelude.{◌≡◌, suc, ◌+◌, ◌<◌, ◌≤◌};
ghost use Rattle.trace.specs.File.{event_limit};
ghost use Rattle.walk.specs.Lowest.{or_none, rule_of, exchange_of};
ghost use Rattle.walk.specs.Pace.{pace, paced, Before};
ghost use Rattle.walk.specs.Walk.{cleared, walkable, walk_file};

use closure::{Known, NOTHING};
use earlier::Boxes;
use trace::limits::{EVENTS, ROW_LIMIT};
use trace::{EventNo, put};

const SIX: u8 = 6;

// What the walk holds before an event: the rows that are used, what the spy knows, the events in their boxes, and
// rows that the spy can make.
#[derive(Drop)]
struct State {
    used: [u8; ROW_LIMIT],
    known: Known,
    boxes: Boxes,
    made: [u8; ROW_LIMIT],
}

// Before any event, and before the starting knowledge. The state stands in one place all along, and is never copied.
const EMPTY: State = State {
    used: [0; ROW_LIMIT],
    known: NOTHING,
    boxes: earlier::EMPTY,
    made: [0; ROW_LIMIT],
};

impl State {
    // An event is added: the rows of its message are used, the spy sees it, and it lies in its box.
    fn take(&mut self, file: &[u8], e: u16)
        requires before { Before file.now e self.old }
        requires in_range { e < event_limit }
        ensures { Before file.now (suc e) self.new }
    {
        used::use_event(file, &mut self.used, EventNo(e));
        self.known.see_event(file, EventNo(e));
        earlier::boxes::keep(file, &mut self.boxes, e);
    }

    // Whether rule 6 puts event e and the next one on those before.
    #[tactic(auto, using(crate::proofs::States::exchange_is))]
    fn exchanges(&self, file: &[u8], e: u16) -> bool
        requires before { Before file.now e self.now }
        requires in_range { e < event_limit }
        ensures { result ≡ exchange_of file.now e }
    {
        let note = trace::event_at(file, EventNo(e));
        let said = trace::event_at(file, EventNo(e + 1));
        rules::key_exchange(file, &self.boxes, &self.used, note, said)
    }

    // One step of the walk from event i: how many events it takes, whose rule numbers are written.
    fn advance(&mut self, file: &[u8], rules: &mut [u8], i: u16, events: u16) -> Option<u16>
        requires in_range { i < events }
        requires few_events { events ≤ event_limit }
        requires before { Before file.now i self.old }
        ensures value { result ≡ or_none (pace (rule_of file.now) (exchange_of file.now) events i) }
        ensures rules_after { rules.new ≡
            paced (rule_of file.now) (exchange_of file.now) events i rules.old }
        ensures after { Before file.now
            (i + pace (rule_of file.now) (exchange_of file.now) events i) self.new }
    {
        if let Some(rule) = self.lowest_rule(file, i) {
            put(rules, usize::from(i), rule);
            self.take(file, i);
            return Some(1);
        }
        let next = i + 1;
        if events <= next || !self.exchanges(file, i) {
            return None;
        }
        put(rules, usize::from(i), SIX);
        put(rules, usize::from(next), SIX);
        self.take(file, i);
        self.take(file, next);
        Some(2)
    }
}

// The first n bytes become 0.
#[tactic(auto, unfolding(crate::specs::Walk::cleared))]
pub fn clear(rules: &mut [u8], n: u16)
    ensures { rules.new ≡ cleared n rules.old }
{
    for i in 0..n {
        put(rules, usize::from(i), 0);
    }
}

// How many events are walked: all, unless the file is one that is refused.
fn walkable(file: &[u8]) -> u16
    ensures { (result ≡ walkable file.now) × (result ≤ event_limit) }
{
    trace::event_count(file).min(EVENTS)
}

// The length of the longest accepted beginning; its rule numbers are written.
pub fn walk_events(file: &[u8], rules: &mut [u8]) -> u16
    ensures value { result ≡ (walk_file file.now rules.old).length }
    ensures rules_after { rules.new ≡ (walk_file file.now rules.old).bytes }
{
    let events = walkable(file);
    let mut state = EMPTY;
    state.known.see_start(file);
    let mut i = 0;
    while i < events {
        let Some(taken) = state.advance(file, rules, i, events) else {
            return i;
        };
        i += taken;
    }
    i
}
