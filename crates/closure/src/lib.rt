// Closing: a row that is learnt is opened once, and a key that becomes known opens what waited for it.
#![tactic(auto)]

ghost use Rattle.std.specs.Prelude.{true, ◌≡◌, ◌≤◌, ◌<◌, suc, length};
ghost use Rattle.trace.specs.File.{row_limit, agent_limit, rows_of};
ghost use Rattle.trace.specs.Events.{event_at};
ghost use Rattle.trace.specs.Kinds.{row_at};
ghost use Rattle.closure.specs.Closure.{is_crypt, state_of, marked, row_marked, opens, below, learn_row, reopen_row, up_rows, down_rows, pass_rows, Reaches, see_row, see_event, start_keys, key_known, start_rows};

use trace::limits::{AGENT_LIMIT, AGENTS, ROW_LIMIT, ROWS};
use trace::rows::{Kind, kind_at};
use trace::{AgentNo, Event, EventNo, Row, RowNo, put};

// A public key and a private one for each agent.
pub const KEYS: usize = 2 * AGENT_LIMIT;

const PUBLIC: usize = 0;

const PRIVATE: usize = AGENT_LIMIT;

// A mark for each analysed row, and one for each key that is known, public keys at 0 to 63 and private
// ones at 64 to 127.
#[derive(Clone, Copy)]
pub struct Known {
    pub rows: [u8; ROW_LIMIT],
    pub keys: [u8; KEYS],
}

// What is known before anything is.
pub const NOTHING: Known = Known {
    rows: [0; ROW_LIMIT],
    keys: [0; KEYS],
};

// Whether a place has its mark: none past the end has.
fn marked(marks: &[u8], at: usize) -> bool
    ensures { result ≡ marked (length marks.now) marks.now at }
{
    marks.get(at) == Some(&1)
}

pub fn row_marked(rows: &[u8; ROW_LIMIT], r: u16) -> bool
    ensures { result ≡ row_marked rows.now r }
{
    marked(rows, usize::from(r))
}

// The rows that a pass looks at: one past the marks is never known, and a file that was read has none.
#[tactic(auto, using(crate::proofs::Folds::reaches_min))]
fn reach(file: &[u8]) -> u16
    ensures upper_bound { result ≤ row_limit }
    ensures reaches { Reaches file.now result }
{
    trace::row_count(file).min(ROWS)
}

// By one byte, since a pass asks it of each marked row.
#[tactic(auto, unfolding(trace::specs::Kinds::row_of))]
fn is_crypt(file: &[u8], r: u16) -> bool
    ensures { result ≡ is_crypt (row_at file.now r) }
{
    matches!(kind_at(file, r), Ok(Kind::Crypt))
}

impl Known {
    // The starting knowledge is added: the private keys of compromised agents, and the rows that hold them.
    pub fn see_start(&mut self, file: &[u8])
        ensures keys_after { self.new.keys ≡ start_keys file.now agent_limit self.old.keys }
        ensures rows_after { self.new.rows ≡
            start_rows file.now (start_keys file.now agent_limit self.old.keys) (rows_of file.now) self.old.rows }
    {
        self.start_keys(file);
        self.start_rows(file, trace::row_count(file));
    }

    #[tactic(auto, unfolding(crate::specs::Closure::start_keys))]
    fn start_keys(&mut self, file: &[u8])
        ensures keys_after { self.new.keys ≡ start_keys file.now agent_limit self.old.keys }
        ensures rows_after { self.new.rows ≡ self.old.rows }
    {
        for agent in 0..AGENTS {
            if trace::compromised(file, AgentNo(agent)) {
                put(&mut self.keys, PRIVATE + usize::from(agent), 1);
            }
        }
    }

    #[tactic(auto, unfolding(crate::specs::Closure::start_rows))]
    fn start_rows(&mut self, file: &[u8], n: u16)
        ensures rows_after { self.new.rows ≡ start_rows file.now self.old.keys n self.old.rows }
        ensures keys_after { self.new.keys ≡ self.old.keys }
    {
        for r in 0..n {
            if self.key_known(trace::row_at(file, RowNo(r))) {
                put(&mut self.rows, usize::from(r), 1);
            }
        }
    }

    // Whether the row is a key that is known.
    fn key_known(&self, row: Row) -> bool
        ensures { result ≡ key_known self.now.keys row }
    {
        match row {
            Row::PublicKey(a) => marked(&self.keys, PUBLIC + usize::from(a.0)),
            Row::PrivateKey(a) => marked(&self.keys, PRIVATE + usize::from(a.0)),
            _ => false,
        }
    }

    // Whether the inverse of the key in row k is known.
    fn opens_with(&self, file: &[u8], k: RowNo) -> bool
        ensures { result ≡ opens file.now self.now.rows self.now.keys k.0 }
    {
        match trace::row_at(file, k) {
            Row::PublicKey(a) => marked(&self.keys, PRIVATE + usize::from(a.0)),
            Row::PrivateKey(a) => marked(&self.keys, PUBLIC + usize::from(a.0)),
            Row::SessionKey(..) => row_marked(&self.rows, k.0),
            _ => false,
        }
    }

    // Learns a row, and all that opens below it with the keys that are known by then. Tells whether a
    // key became known. A row that is marked was opened before, so shared rows are walked once.
    #[cycle(learn_learn_below)]
    fn learn(&mut self, file: &[u8], row: u16) -> bool
        ensures { state_of self.new.rows self.new.keys result ≡
            learn_row file.now (suc row) self.old.rows self.old.keys row }
    {
        if row_marked(&self.rows, row) || ROWS <= row {
            return false;
        }
        let fresh = match trace::row_at(file, RowNo(row)) {
            Row::Pair(x, y) => {
                let left = self.learn_below(file, row, x.0);
                let right = self.learn_below(file, row, y.0);
                left | right
            }
            Row::Crypt(k, body) => {
                let opens = self.opens_with(file, k);
                if opens {
                    self.learn_below(file, row, body.0)
                } else {
                    false
                }
            }
            Row::PublicKey(a) => {
                put(&mut self.keys, PUBLIC + usize::from(a.0), 1);
                true
            }
            Row::PrivateKey(a) => {
                put(&mut self.keys, PRIVATE + usize::from(a.0), 1);
                true
            }
            Row::SessionKey(..) => true,
            _ => false,
        };
        self.rows[usize::from(row)] = 1;
        fresh
    }

    #[cycle(learn_learn_below)]
    fn learn_below(&mut self, file: &[u8], row: u16, x: u16) -> bool
        ensures { state_of self.new.rows self.new.keys result ≡
            below (learn_row file.now row) self.old.rows self.old.keys row x }
    {
        if x < row { self.learn(file, x) } else { false }
    }

    // Opens a marked Crypt again, with the keys that are known by now: all else was open when it was
    // marked. Most rows of a pass end at the mark, so that a call would cost more than what it does.
    #[inline(always)]
    fn reopen(&mut self, file: &[u8], r: u16) -> bool
        requires { r < row_limit }
        ensures { state_of self.new.rows self.new.keys result ≡
            reopen_row file.now self.old.rows self.old.keys r }
    {
        if self.rows[usize::from(r)] != 1 || !is_crypt(file, r) {
            return false;
        }
        let Row::Crypt(k, body) = trace::row_at(file, RowNo(r)) else {
            return false;
        };
        if row_marked(&self.rows, body.0) || !self.opens_with(file, k) {
            return false;
        }
        self.learn_below(file, r, body.0)
    }

    // From the lowest row up; tells whether a key became known.
    #[tactic(auto, unfolding(crate::specs::Closure::up_rows))]
    fn pass_up(&mut self, file: &[u8], n: u16) -> bool
        requires { n ≤ row_limit }
        ensures { state_of self.new.rows self.new.keys result ≡
            up_rows file.now n self.old.rows self.old.keys }
    {
        let mut fresh = false;
        for r in 0..n {
            if self.reopen(file, r) {
                fresh = true;
            }
        }
        fresh
    }

    // From the highest row down, where a key became known on the way up.
    #[tactic(auto, unfolding(crate::specs::Closure::down_rows))]
    fn pass_down(&mut self, file: &[u8], n: u16)
        requires { n ≤ row_limit }
        ensures { state_of self.new.rows self.new.keys true ≡
            down_rows file.now n self.old.rows self.old.keys }
    {
        for r in (0..n).rev() {
            self.reopen(file, r);
        }
    }

    // One pass over the rows, up, and down if that found a key: a chain of keys opens at once in either
    // order. Going up without a new key leaves nothing to open.
    fn pass(&mut self, file: &[u8]) -> bool
        ensures { state_of self.new.rows self.new.keys result ≡
            pass_rows file.now (rows_of file.now) self.old.rows self.old.keys }
    {
        let n = reach(file);
        let found = self.pass_up(file, n);
        if found {
            self.pass_down(file, n);
        }
        found
    }

    // A row is seen. A pass that finds a key marks its row, so there are at most as many passes as rows.
    fn see(&mut self, file: &[u8], row: u16)
        ensures { self.new ≡ see_row file.now self.old.rows self.old.keys row }
    {
        let mut fresh = self.learn(file, row);
        for _ in 0..ROWS {
            if !fresh {
                break;
            }
            fresh = self.pass(file);
        }
    }

    // An event is seen if it is a Says, or a Notes of a compromised agent.
    #[tactic(auto, unfolding(crate::specs::Closure::see_event))]
    pub fn see_event(&mut self, file: &[u8], e: EventNo)
        ensures { self.new ≡
            see_event file.now self.old.rows self.old.keys (event_at file.now e.0) }
    {
        match trace::event_at(file, e) {
            Event::Says(_, _, r) => self.see(file, r.0),
            Event::Notes(a, r) => {
                let seen = trace::compromised(file, a);
                if seen {
                    self.see(file, r.0)
                }
            }
        }
    }
}
