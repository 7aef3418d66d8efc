// A run that is being written, as a plain value: which of its lines are due, and what its last step told.
ghost use Rattle.std.specs.Prelude.{◌≡◌, ◌<◌, Some, None, cond};
ghost use Rattle.ticks.specs.Ticks.{last_instant};
ghost use Rattle.waveform.specs.Runs.{job_wire, feed_wire};
ghost use Rattle.waveform.specs.Cursors.{any_due, one_less, told_by, any_value, begun, first_due, wrote, since_by, stepped};
ghost use Rattle.waveform.specs.Order.{ordered_before, ordered_after, ordered, none, is_none};

use crate::Token;
use answers::Who;
use feeds::Feed;
use ticks::Instant;

// How many of the lines in front are written, and which of a mark, the job's value and the feed's are due.
#[repr(C)]
#[derive(Clone, Copy, PartialEq, Eq)]
pub struct Due {
    pub heads: u32,
    pub mark: bool,
    pub job: bool,
    pub feed: bool,
}

// Whether a step was taken, what is due, since when the same one runs, the clock, and the values of the two wires.
#[repr(C)]
#[derive(Clone, Copy, PartialEq, Eq)]
pub struct Cursor {
    pub ran: bool,
    pub due: Due,
    pub since: u64,
    pub clock: u64,
    pub number: u32,
    pub position: u32,
}

impl Due {
    // No line is written, and neither a mark nor a value is due.
    pub const NONE: Due = Due {
        heads: 0,
        mark: false,
        job: false,
        feed: false,
    };

    // Whether any line is due.
    #[tactic(auto, unfolding(crate::specs::Cursors::any_due, crate::specs::Cursors::any_value))]
    pub fn any(self) -> bool
        ensures { result ≡ any_due self }
    {
        self.heads < Token::HEADS || self.mark || self.value()
    }

    // What is due after the first of the lines.
    #[tactic(auto, unfolding(crate::specs::Cursors::one_less))]
    pub fn less(self) -> Due
        ensures { result ≡ one_less self }
    {
        if self.heads < Token::HEADS {
            Due {
                heads: self.heads + 1,
                ..self
            }
        } else if self.mark {
            Due {
                mark: false,
                ..self
            }
        } else if self.job {
            Due { job: false, ..self }
        } else {
            Due {
                feed: false,
                ..self
            }
        }
    }

    // What a step makes due, by whether one was taken before it and which of the values change.
    #[tactic(auto, unfolding(crate::specs::Cursors::told_by))]
    fn told(self, ran: bool, job: bool, feed: bool) -> Due
        ensures { result ≡ told_by self ran job feed }
    {
        if ran {
            Due {
                mark: job || feed,
                job,
                feed,
                ..self
            }
        } else {
            Due {
                mark: false,
                job: true,
                feed: true,
                ..self
            }
        }
    }

    // Whether a value is due.
    #[tactic(auto, unfolding(crate::specs::Cursors::any_value))]
    fn value(self) -> bool
        ensures { result ≡ any_value self }
    {
        self.job || self.feed
    }
}

// The values of the two wires in a tick.
fn job_wire(who: Who) -> u32
    ensures { result ≡ job_wire who }
{
    match who {
        Who::Job(number) => number,
        _ => 0,
    }
}

fn feed_wire(who: Who) -> u32
    ensures { result ≡ feed_wire who }
{
    match who {
        Who::Feed(position) => position,
        _ => 0,
    }
}

impl Cursor {
    // The empty cursor: no run is being written.
    pub const NONE: Cursor = Cursor {
        ran: false,
        due: Due::NONE,
        since: 0,
        clock: 0,
        number: 0,
        position: 0,
    };

    pub fn none() -> Cursor
        ensures { result ≡ none }
    {
        Cursor::NONE
    }

    #[tactic(auto, unfolding(crate::specs::Order::is_none, crate::specs::Cursors::any_value, lists::specs::Lists::all_of))]
    pub fn is_none(self) -> bool
        ensures { result ≡ is_none self }
    {
        self == Cursor::NONE
    }

    // Whether its fields agree with each other before the first step.
    #[tactic(auto, unfolding(crate::specs::Order::ordered_before, lists::specs::Lists::all_of))]
    fn in_order_before(self) -> bool
        ensures { result ≡ ordered_before self }
    {
        self.since == self.clock
            && self.number == 0
            && self.position == 0
            && !self.due.value()
            && self.due.heads <= Token::HEADS
            && (Token::HEADS <= self.due.heads || self.due.mark)
    }

    // And after one.
    #[tactic(auto, unfolding(crate::specs::Order::ordered_after, lists::specs::Lists::all_of))]
    fn in_order_after(self) -> bool
        ensures { result ≡ ordered_after self }
    {
        self.due.heads == Token::HEADS
            && self.since < self.clock
            && crate::alone(self.number, self.position)
            && self.position as usize <= Feed::MOST
            && if self.due.value() {
                self.since + 1 == self.clock
            } else {
                !self.due.mark
            }
    }

    // Whether any cursor that is handed in is one of a run that is being written.
    #[tactic(auto, unfolding(crate::specs::Order::ordered, lists::specs::Lists::all_of))]
    pub fn in_order(self) -> bool
        ensures { result ≡ ordered self }
    {
        let agrees = if self.ran {
            self.in_order_after()
        } else {
            self.in_order_before()
        };
        agrees && Instant(self.clock) <= Instant::LAST
    }

    // The lines in front and the first mark are due.
    pub fn begin(clock: u64) -> Cursor
        ensures { result ≡ begun clock }
    {
        Cursor {
            due: Due {
                mark: true,
                ..Due::NONE
            },
            since: clock,
            clock,
            ..Cursor::NONE
        }
    }

    // The first line that is due, if any is.
    #[tactic(auto, unfolding(crate::specs::Cursors::first_due, crate::specs::Cursors::any_due))]
    pub fn first(self) -> Option<Token>
        ensures { result ≡ cond (any_due self.due) (Some (first_due self)) None }
    {
        if self.due.heads < Token::HEADS {
            Some(Token::Head(self.due.heads))
        } else if self.due.mark {
            Some(Token::Mark(self.since))
        } else if self.due.job {
            Some(Token::Job(self.number))
        } else if self.due.feed {
            Some(Token::Feed(self.position))
        } else {
            None
        }
    }

    // After the first of them is written.
    pub fn wrote(self) -> Cursor
        ensures { result ≡ wrote self }
    {
        Cursor {
            due: self.due.less(),
            ..self
        }
    }

    // Since when the same one runs, by what a step makes due.
    #[tactic(auto, unfolding(crate::specs::Cursors::since_by))]
    fn since_by(self, due: Due) -> u64
        ensures { result ≡ since_by self due }
    {
        if due.value() { self.clock } else { self.since }
    }

    // After a step that went to somebody.
    #[tactic(auto, using(crate::proofs::Cursors::stepped_made))]
    pub fn stepped(self, who: Who) -> Cursor
        requires { self.clock < last_instant }
        ensures { result ≡ stepped self who }
    {
        let number = job_wire(who);
        let position = feed_wire(who);
        let due = self
            .due
            .told(self.ran, number != self.number, position != self.position);
        Cursor {
            ran: true,
            due,
            since: self.since_by(due),
            clock: self.clock + 1,
            number,
            position,
        }
    }
}
