// The lowest rule that fits an event, by what the event is.
ghost use Rattle.std.specs.Prelude.{◌≡◌};
ghost use Rattle.earlier.specs.Earlier.{heard_in};
ghost use Rattle.earlier.specs.Boxes.{found};
ghost use Rattle.accepts.specs.Hashes.{both_in};
ghost use Rattle.walk.specs.Lowest.{or_none, lowest_noted, lowest_crypt, lowest_plain, lowest_said, rule_of};
ghost use Rattle.walk.specs.Pace.{Before};

use super::State;
use trace::{Event, EventNo, RowNo};

impl State {
    // A note: 2, 10 or 11.
    #[tactic(auto, unfolding(crate::specs::Lowest::lowest_noted))]
    fn lowest_noted(&self, file: &[u8], e: u16, event: Event) -> Option<u8>
        ensures { result ≡ or_none (lowest_noted file.now self.now.known.rows
            (found file.now self.now.boxes) (both_in file.now self.now.boxes e) (heard_in event)) }
    {
        if rules::spy_keys(file, &self.known.rows, event) {
            return Some(2);
        }
        if accepts::client_accepts(file, &self.boxes, e, event) {
            return Some(10);
        }
        if accepts::server_accepts(file, &self.boxes, e, event) {
            return Some(11);
        }
        None
    }

    // A Says of a Crypt: 5, 7, 8, 9, 12 or 13.
    #[tactic(auto, unfolding(crate::specs::Lowest::lowest_crypt))]
    fn lowest_crypt(&self, file: &[u8], event: Event) -> Option<u8>
        ensures { result ≡ or_none
            (lowest_crypt file.now (found file.now self.now.boxes) (heard_in event)) }
    {
        if rules::certificate(file, event) {
            return Some(5);
        }
        if rules::cert_verify(file, &self.boxes, event) {
            return Some(7);
        }
        if finished::client_finished(file, &self.boxes, event) {
            return Some(8);
        }
        if finished::server_finished(file, &self.boxes, event) {
            return Some(9);
        }
        if finished::client_resume(file, &self.boxes, event) {
            return Some(12);
        }
        if finished::server_resume(file, &self.boxes, event) {
            return Some(13);
        }
        None
    }

    // A Says of another message: 3, 4 or 14.
    #[tactic(auto, unfolding(crate::specs::Lowest::lowest_plain))]
    fn lowest_plain(&self, file: &[u8], event: Event) -> Option<u8>
        ensures { result ≡ or_none
            (lowest_plain file.now self.now.used (found file.now self.now.boxes) (heard_in event)) }
    {
        if rules::client_hello(file, &self.used, event) {
            return Some(3);
        }
        if rules::server_hello(file, &self.boxes, &self.used, event) {
            return Some(4);
        }
        if rules::oops(file, &self.boxes, event) {
            return Some(14);
        }
        None
    }

    // A Says: 1, or by whether its message is a Crypt. More rows are marked that can be made.
    #[tactic(auto, unfolding(crate::specs::Lowest::lowest_said))]
    fn lowest_said(&mut self, file: &[u8], e: u16, event: Event, row: RowNo) -> Option<u8>
        requires before { Before file.now e self.old }
        requires row { (heard_in event).row ≡ row.0 }
        ensures value { result ≡ or_none (lowest_said file.now self.old.used self.old.known.rows
            (found file.now self.old.boxes) (heard_in event)) }
        ensures before { Before file.now e self.new }
    {
        if rules::fake(file, &self.known.rows, &mut self.made, event) {
            return Some(1);
        }
        if forms::leaves::crypt_of(file, row.0).is_some() {
            return self.lowest_crypt(file, event);
        }
        self.lowest_plain(file, event)
    }

    #[tactic(auto, using(crate::proofs::States::said_is, crate::proofs::States::noted_is))]
    pub fn lowest_rule(&mut self, file: &[u8], e: u16) -> Option<u8>
        requires { Before file.now e self.old }
        ensures value { result ≡ or_none (rule_of file.now e) }
        ensures before { Before file.now e self.new }
    {
        let event = trace::event_at(file, EventNo(e));
        match event {
            Event::Says(_, _, row) => self.lowest_said(file, e, event, row),
            Event::Notes(..) => self.lowest_noted(file, e, event),
        }
    }
}
