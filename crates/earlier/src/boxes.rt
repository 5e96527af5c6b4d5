// Earlier events by their boxes, so that a search looks only where its event can lie.
//
// An event lies in the box of its receiver, and a note in one of its agent's own. A box leads to its latest event, an
// event to the one before it in its box, and a slot to the last event that was kept there: by one more than the
// event's number, or 0 for none. An event that equals the one at its slot is not kept again, so that repeats cost
// nothing.
ghost use Rattle.std.specs.Prelude.{◌≡◌, ◌<◌, ltb, ◌&&◌, IfSome, false, true};
ghost use Rattle.trace.specs.File.{event_limit, agent_limit};
ghost use Rattle.laws.specs.First.{any};
ghost use Rattle.forms.specs.Kinds.{server_in};
ghost use Rattle.earlier.specs.Earlier.{heard_in, heard_at};
ghost use Rattle.earlier.specs.Boxes.{box_count, slot_count, box_of, box_for, latest_to, next, chain_from, rest_of, some, fits_at, found_in, found};
ghost use Rattle.std.specs.Iterator.{YieldsFirst, item_count};
ghost use Rattle.earlier.specs.Kept.{slot_of, is_again, seal_mark, sealed_at, boxed_in, kept_in};

use super::cards::Card;
use super::{Wanted, Who, cards};
use trace::limits::{AGENT_LIMIT, AGENTS, EVENT_LIMIT, EVENTS};
use trace::{Event, EventNo, Role};

// First the boxes of receivers, then those of notes.
const NOTES: u16 = AGENTS;

const BOXES: usize = 2 * AGENT_LIMIT;

const SLOTS: usize = 1024;

// The heads of the boxes; of each event the link to the one before it in its box, the hash of its Finished as a
// client's and as a server's, and its card; and the slots.
#[derive(Clone, Copy)]
pub struct Boxes {
    pub heads: [u16; BOXES],
    pub links: [u16; EVENT_LIMIT],
    pub slots: [u16; SLOTS],
    pub clients: [Option<u16>; EVENT_LIMIT],
    pub servers: [Option<u16>; EVENT_LIMIT],
    pub cards: [Card; EVENT_LIMIT],
}

// Before any event.
pub const EMPTY: Boxes = Boxes {
    heads: [0; BOXES],
    links: [0; EVENT_LIMIT],
    slots: [0; SLOTS],
    clients: [None; EVENT_LIMIT],
    servers: [None; EVENT_LIMIT],
    cards: [Card::Other; EVENT_LIMIT],
};

fn box_of(event: Event) -> u16
    ensures { (result ≡ box_of (heard_in event)) × (result < box_count) }
{
    match event {
        Event::Says(_, receiver, _) => receiver.0 % AGENTS,
        Event::Notes(agent, _) => NOTES + agent.0 % AGENTS,
    }
}

// The box of what is wanted; what is said to anyone can be in any, and has none.
#[inline(always)]
fn box_for(wanted: Wanted) -> Option<u16>
    ensures value { result ≡ box_for wanted }
    ensures in_range { IfSome result (λ b. b < box_count) }
{
    match wanted {
        Wanted::Said(Who::To(to), _) | Wanted::Said(Who::By(_, to), _) => Some(to % AGENTS),
        Wanted::Said(Who::From(_), _) => None,
        Wanted::Noted(from, _) => Some(NOTES + from % AGENTS),
    }
}

// The latest event that was said to an agent: one more than its number, or 0.
pub fn latest_to(boxes: &Boxes, to: u16) -> u16
    ensures { result ≡ latest_to boxes.now to }
{
    boxes.heads[usize::from(to % AGENTS)]
}

// The next link of a chain. It falls, so that every walk ends, whatever the links are.
pub fn next(boxes: &Boxes, link: u16) -> u16
    ensures { result ≡ next boxes.now link }
{
    if link == 0 || EVENTS < link {
        return 0;
    }
    let l = boxes.links[usize::from(link - 1)];
    if l < link { l } else { 0 }
}

// Few cards fit, so what a search needs to read an event is kept out of its loop.
#[inline(never)]
fn event_of(file: &[u8], j: u16) -> Event
    ensures { heard_in result ≡ heard_at file.now j }
{
    trace::event_at(file, EventNo(j))
}

// Whether event j is what is wanted: its card first, since most differ there.
#[inline(always)]
fn fits(file: &[u8], boxes: &Boxes, wanted: Wanted, j: u16) -> bool
    ensures { result ≡ fits_at file.now boxes.now wanted j }
{
    j < EVENTS
        && cards::fits_card(wanted, boxes.cards[usize::from(j)])
        && cards::fits_agents(wanted, event_of(file, j))
}

// The events of a chain, the latest first.
#[derive(Drop)]
pub struct Chain<'a> {
    boxes: &'a Boxes,
    link: u16,
}

impl<'a> Iterator for Chain<'a> {
    type Item = u16;

    ghost next_gives = { YieldsFirst rest_of };

    ghost remaining = { item_count rest_of };

    #[tactic(auto, using(crate::proofs::Chains::chain_step, crate::proofs::Chains::chain_end))]
    fn next(&mut self) -> Option<u16> {
        if self.link == 0 {
            return None;
        }
        let e = self.link - 1;
        self.link = next(self.boxes, self.link);
        Some(e)
    }
}

// The events from a link on.
fn events_from(boxes: &Boxes, link: u16) -> Chain
    ensures { rest_of result ≡ chain_from boxes.now link }
{
    Chain { boxes, link }
}

// The events that were said to an agent, and those that share its box.
pub fn events_to(boxes: &Boxes, to: u16) -> Chain
    ensures { rest_of result ≡ chain_from boxes.now (latest_to boxes.now to) }
{
    events_from(boxes, latest_to(boxes, to))
}

// Whether an event of the chain is what is wanted. It goes by links: over `Chain`, whose step comes before the look, a
// look takes half as long again.
#[inline(always)]
#[tactic(auto, using(crate::proofs::Chains::chain_step, crate::proofs::Chains::chain_end))]
fn search(file: &[u8], boxes: &Boxes, wanted: Wanted, head: u16) -> bool
    ensures { result ≡ some (fits_at file.now boxes.now wanted) (chain_from boxes.now head) }
{
    let mut link = head;
    while let Some(e) = link.checked_sub(1) {
        if fits(file, boxes, wanted, e) {
            return true;
        }
        link = next(boxes, link);
    }
    false
}

// The same in the boxes of all receivers.
fn search_all(file: &[u8], boxes: &Boxes, wanted: Wanted) -> bool
    ensures { result ≡ any (found_in file.now boxes.now wanted) agent_limit }
{
    (0..AGENT_LIMIT).any(|b| search(file, boxes, wanted, boxes.heads[b]))
}

// Whether some earlier event is what is wanted. It stands in place where it is asked for: each rule looks for one
// message, and so has a loop that compares cards of that one alone.
#[inline(always)]
pub fn happened(file: &[u8], boxes: &Boxes, wanted: Wanted) -> bool
    ensures { result ≡ found file.now boxes.now wanted }
{
    match box_for(wanted) {
        Some(b) => search(file, boxes, wanted, boxes.heads[usize::from(b)]),
        None => search_all(file, boxes, wanted),
    }
}

// Odd factors spread the events of a usual file over all slots.
fn slot_of(event: Event) -> usize
    ensures { (result ≡ slot_of (heard_in event)) × (result < slot_count) }
{
    let (row, from, to) = match event {
        Event::Says(sender, receiver, row) => (row.0, sender.0, receiver.0),
        Event::Notes(agent, row) => (row.0, agent.0, 0),
    };
    (usize::from(row) * 5 + usize::from(from) * 97 + usize::from(to) * 31) % SLOTS
}

// Whether the link leads to an event before e that equals this one.
fn is_again(file: &[u8], e: u16, link: u16, event: Event) -> bool
    ensures { result ≡ is_again file.now e link (heard_in event) }
{
    0 < link && link <= e && trace::event_at(file, EventNo(link - 1)) == event
}

// The row of the hash of a client's Finished, and of a server's.
fn seals_of(file: &[u8], r: u16) -> (Option<u16>, Option<u16>)
    ensures { result ≡ (seal_mark file.now false r, seal_mark file.now true r) }
{
    let Some(f) = forms::finished(file, r) else {
        return (None, None);
    };
    match f.role {
        Role::Client => (Some(f.hash), None),
        Role::Server => (None, Some(f.hash)),
    }
}

// The row of the hash of an event's Finished, if its message was one of that role when it was kept.
pub fn sealed(boxes: &Boxes, role: Role, e: u16) -> Option<u16>
    ensures { result ≡ sealed_at boxes.now (server_in role) e }
{
    let seals = match role {
        Role::Client => &boxes.clients,
        Role::Server => &boxes.servers,
    };
    *seals.get(usize::from(e))?
}

// Event e is put into its box, unless its slot leads to one that equals it.
fn box_event(file: &[u8], boxes: &mut Boxes, e: u16, event: Event)
    requires in_range { e < event_limit }
    requires heard { heard_in event ≡ heard_at file.now e }
    ensures { boxes.new ≡ boxed_in file.now boxes.old e }
{
    let b = usize::from(box_of(event));
    let slot = slot_of(event);
    let again = is_again(file, e, boxes.slots[slot], event);
    if !again {
        boxes.links[usize::from(e)] = boxes.heads[b];
        boxes.heads[b] = e + 1;
        boxes.slots[slot] = e + 1;
    }
}

fn row_of(event: Event) -> u16
    ensures { result ≡ (heard_in event).row }
{
    match event {
        Event::Says(_, _, row) | Event::Notes(_, row) => row.0,
    }
}

// Event e is kept: in its box, by the hash of its Finished, and by its card.
pub fn keep(file: &[u8], boxes: &mut Boxes, e: u16)
    ensures { boxes.new ≡ kept_in file.now boxes.old e }
{
    if e < EVENTS {
        let event = trace::event_at(file, EventNo(e));
        let (client, server) = seals_of(file, row_of(event));
        box_event(file, boxes, e, event);
        boxes.clients[usize::from(e)] = client;
        boxes.servers[usize::from(e)] = server;
        boxes.cards[usize::from(e)] = cards::card_of(file, event);
    }
}
