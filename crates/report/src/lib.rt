// The text that the bench's small program prints: a line for each event of the accepted beginning, then the verdict.
#![tactic(auto)]

ghost use Rattle.std.specs.Prelude.{◌≡◌, ◌∷◌, [], ◌++◌};
ghost use Rattle.judge.specs.Judged.{verdict_length};
ghost use Rattle.report.specs.Text.{digits, newline, event_line, event_lines, last_line, text_of, Reported};

use itoa::Buffer;
use judge::reply::Verdict;
use trace::Cause;
use trace::limits::EVENT_LIMIT;

// A text has at most 3,600 bytes.
pub const TEXT_ROOM: usize = 4096;

const SPACE: u8 = b' ';

const NEWLINE: u8 = b'\n';

// How many events the verdict accepts.
fn accepted(verdict: Result<Verdict, Cause>) -> u16
    ensures { result ≡ verdict_length verdict }
{
    match verdict {
        Err(_) => 0,
        Ok(Verdict::Illegal(n) | Verdict::Accepted(n)) => n,
    }
}

// Where the text is written, and where its next byte goes.
#[derive(Drop)]
struct Page<'a> {
    out: &'a mut [u8],
    at: usize,
}

impl Page<'_> {
    ghost use Rattle.report.specs.Written.{Writes};

    // Past the end nothing is written.
    #[tactic(auto, using(crate::proofs::Pages::put_room, crate::proofs::Pages::put_full))]
    fn byte(&mut self, byte: u8)
        ensures { Writes self.old (byte ∷ []) self.new }
    {
        if self.at < self.out.len() {
            self.out[self.at] = byte;
            self.at += 1;
        }
    }

    #[tactic(auto, using(crate::proofs::Pages::put_none, crate::proofs::Pages::put_whole))]
    fn word(&mut self, word: &[u8])
        ensures { Writes self.old word.now self.new }
    {
        for &b in word {
            self.byte(b);
        }
    }

    #[tactic(auto, using(crate::proofs::Numbers::digits_decimal))]
    fn number(&mut self, n: u16)
        ensures { Writes self.old (digits n) self.new }
    {
        self.word(Buffer::new().format(n).as_bytes());
    }

    // The line of event e.
    fn event(&mut self, e: u16, rule: u8)
        ensures { Writes self.old (event_line e rule) self.new }
    {
        self.number(e);
        self.byte(SPACE);
        self.number(u16::from(rule));
        self.byte(NEWLINE);
    }

    // The lines of the first n events.
    #[tactic(auto, using(crate::proofs::Lines::put_no_events))]
    fn events(&mut self, rules: &[u8], n: u16)
        ensures { Writes self.old (event_lines rules.now n) self.new }
    {
        for e in 0..n {
            let rule = rules.get(usize::from(e)).copied().unwrap_or(0);
            self.event(e, rule);
        }
    }

    fn line(&mut self, word: &[u8], n: u16)
        ensures { Writes self.old (word.now ++ (digits n ++ newline)) self.new }
    {
        self.word(word);
        self.number(n);
        self.byte(NEWLINE);
    }

    fn last_line(&mut self, verdict: Result<Verdict, Cause>)
        ensures { Writes self.old (last_line verdict) self.new }
    {
        match verdict {
            Err(cause) => {
                self.word(b"refused ");
                self.number(trace::number(cause));
                self.byte(SPACE);
                self.number(trace::place(cause));
                self.byte(NEWLINE);
            }
            Ok(Verdict::Illegal(n)) => self.line(b"illegal ", n),
            Ok(Verdict::Accepted(n)) => self.line(b"accepted ", n),
        }
    }

    // The text of a verdict; where the buffer ends it is cut.
    fn text(&mut self, verdict: Result<Verdict, Cause>, rules: &[u8])
        ensures { Writes self.old (text_of verdict rules.now) self.new }
    {
        self.events(rules, accepted(verdict));
        self.last_line(verdict);
    }
}

// The text of the verdict on a file.
pub fn report(file: &[u8], out: &mut [u8; TEXT_ROOM]) -> usize
    ensures { Reported file.now out.old result out.new }
{
    let mut rules = [0u8; EVENT_LIMIT];
    let verdict = judge::verdict(file, &mut rules);
    let mut page = Page { out, at: 0 };
    page.text(verdict, &rules);
    page.at
}
