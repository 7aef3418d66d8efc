// The rehearsal: a session over the desk that hears one line after another and tells what each answers.
// It must not know input and output, nor the words of an answer: the text is lent to it, and the words are the sayings'.
#![tactic(auto)]

ghost use Rattle.std.specs.Prelude.{◌≡◌, ◌*◌, ◌≤◌, ◌<◌, length, take};
ghost use Rattle.feeds.specs.Feeds.{numbers_a_feed};
ghost use Rattle.desk.specs.State.{Good};
ghost use Rattle.desk.specs.Opening.{opened_of};
ghost use Rattle.desk.specs.Calls.{end_of, rest_of};
ghost use Rattle.rehearsal.specs.Session.{most_feed_lines, begun, reply, bad_of, fed, gone_of, call_of, with_left, tick_of};
ghost use Rattle.rehearsal.specs.Hearing.{Told, Heard, Answers};

use desk::{Answer, Desk};
use feeds::Feed;
use sayings::Said;
use words::Line;

// What was heard so far: the desk, the numbers of the feed lines, whether the desk is open, whether the rehearsal is
// over, and how many ticks of a run are left.
#[derive(Clone, Copy)]
pub struct Session {
    pub desk: Desk,
    pub list: [u32; Feed::NUMBERS * Session::FEEDS],
    pub feeds: usize,
    pub opened: bool,
    pub over: bool,
    pub left: u32,
}

// The session after a line or a tick, and what is said.
#[derive(Clone, Copy)]
pub struct Reply {
    pub session: Session,
    pub said: Said,
}

// Where in the input a session stands: the place of the next byte, and how many lines were read before it.
#[derive(Clone, Copy)]
pub struct Place {
    pub from: usize,
    pub lines: usize,
}

impl Place {
    // The rehearsal's own limit on the bytes of its input.
    pub const MOST: usize = 65536; // bytes
}

// A reply, and where it left the input.
#[derive(Clone, Copy)]
pub struct Read {
    pub reply: Reply,
    pub place: Place,
}

impl Session {
    // The rehearsal's own limit on feed lines, one more than a desk takes.
    const FEEDS: usize = 17;

    // A session that has heard nothing.
    pub fn begin() -> Session
        ensures { result ≡ begun }
    {
        Session {
            desk: Desk::none(),
            list: [0; Feed::NUMBERS * Session::FEEDS],
            feeds: 0,
            opened: false,
            over: false,
            left: 0,
        }
    }

    // A bad line ends the rehearsal.
    fn bad(self, line: usize) -> Reply
        ensures { result ≡ bad_of self line }
    {
        Reply {
            session: Session { over: true, ..self },
            said: Said::Bad(line),
        }
    }

    fn feed(self, period: u32, work: u32, offset: u32, lead: u32) -> Reply
        requires { self.feeds < most_feed_lines }
        ensures { result ≡ reply (fed self period work offset lead) Said.Nothing }
    {
        let at = Feed::NUMBERS * self.feeds;
        let mut list = self.list;
        list[at..at + Feed::NUMBERS].copy_from_slice(&[period, work, offset, lead]);
        Reply {
            session: Session {
                list,
                feeds: self.feeds + 1,
                ..self
            },
            said: Said::Nothing,
        }
    }

    // A refused opening ends the rehearsal.
    fn go(self, start: u64, charge: u32) -> Reply
        requires { self.feeds ≤ most_feed_lines }
        ensures { result ≡ gone_of self (opened_of (take (numbers_a_feed * self.feeds) self.list) start charge) }
    {
        let numbers = Feed::NUMBERS * self.feeds;
        let Answer { desk, verdict } = Desk::open(&self.list[..numbers], start, charge);
        Reply {
            session: Session {
                desk,
                opened: true,
                over: verdict.is_err(),
                ..self
            },
            said: Said::Go(answers::answer(verdict)),
        }
    }

    fn ask(self, number: u32, work: u32, lead: u32) -> Reply
        ensures { Told self number work lead result }
    {
        let Answer { desk, verdict } = self.desk.ask(number, work, lead);
        Reply {
            session: Session { desk, ..self },
            said: Said::Ask(number, answers::answer(verdict)),
        }
    }

    fn end(self, number: u32) -> Reply
        ensures { result ≡ call_of self Said.End (end_of self.desk number) }
    {
        let Answer { desk, verdict } = self.desk.end(number);
        Reply {
            session: Session { desk, ..self },
            said: Said::End(answers::answer(verdict)),
        }
    }

    fn rest(self, position: u32) -> Reply
        ensures { result ≡ call_of self Said.Rest (rest_of self.desk position) }
    {
        let Answer { desk, verdict } = self.desk.rest(position);
        Reply {
            session: Session { desk, ..self },
            said: Said::Rest(answers::answer(verdict)),
        }
    }

    // A run is only begun here: each of its ticks has a reply of its own.
    fn run(self, ticks: u32) -> Reply
        ensures { result ≡ reply (with_left self ticks) Said.Nothing }
    {
        Reply {
            session: Session {
                left: ticks,
                ..self
            },
            said: Said::Nothing,
        }
    }

    // What a line answers; `line` is its number, counted from 1. Feeds are heard before `go`, `go` once, the calls after it.
    #[tactic(auto, unfolding(crate::specs::Hearing::Heard, crate::specs::Session::feed_of, crate::specs::Session::go_of, crate::specs::Session::end_of, crate::specs::Session::rest_of, crate::specs::Session::run_of))]
    pub fn hear(self, line: usize, means: Line) -> Reply
        ensures { Heard self line means result }
    {
        let Session { opened, feeds, .. } = self;
        match means {
            Line::Feed(period, work, offset, lead) if !opened && feeds < Session::FEEDS => {
                self.feed(period, work, offset, lead)
            }
            Line::Go(start, charge) if !opened && feeds <= Session::FEEDS => self.go(start, charge),
            Line::Ask(number, work, lead) if opened => self.ask(number, work, lead),
            Line::End(number) if opened => self.end(number),
            Line::Rest(position) if opened => self.rest(position),
            Line::Run(ticks) if opened => self.run(ticks),
            _ => self.bad(line),
        }
    }

    // One tick of the run that is under way; a refused step ends its run. Every state from an opening onward is good, so its
    // order is not checked again at each tick.
    pub fn tick(self) -> Reply
        requires { (0 < self.left) × Good self.desk }
        ensures { result ≡ tick_of self }
    {
        let instant = self.desk.ledger.clock.0;
        match serving::step(self.desk.ledger) {
            Ok(stepped) => Reply {
                session: Session {
                    desk: self.desk.with(stepped.ledger),
                    left: self.left - 1,
                    ..self
                },
                said: Said::Tick(instant, stepped.who),
            },
            Err(refusal) => Reply {
                session: Session { left: 0, ..self },
                said: Said::Stopped(refusal.number()),
            },
        }
    }

    // What the next line of the input answers; a last line without its newline is bad.
    pub fn read(self, input: &[u8], place: Place) -> Read
        requires { (place.lines ≤ place.from) × (place.from < length input.now) }
        ensures { Answers self input.now place result }
    {
        let from = place.from;
        let lines = place.lines + 1;
        let Some(end) = text::line_end(input, from) else {
            return Read {
                reply: self.bad(lines),
                place: Place {
                    from: input.len(),
                    lines,
                },
            };
        };
        Read {
            reply: self.hear(lines, words::read_line(&input[from..end])),
            place: Place {
                from: end + 1,
                lines,
            },
        }
    }
}
