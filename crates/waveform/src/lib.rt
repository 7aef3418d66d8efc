// A run of steps as a waveform: what a line of such a text says, how far a text has come, and how a run is written line by line.
// It must not know the desk, nor who may run when.
#![tactic(auto)]

ghost use Rattle.std.specs.Prelude.{◌≡◌, ◌&&◌, [], Some, None, cond, get_or, leb, ltb};
ghost use Rattle.lists.specs.Lists.{bit};
ghost use Rattle.ticks.specs.Ticks.{last_instant};
ghost use Rattle.feeds.specs.Feeds.{most_feeds};
ghost use Rattle.waveform.specs.Bytes.{head_lines, head_in, mark_by, Narrow, value_by, value_of, says};
ghost use Rattle.waveform.specs.Reading.{alone, ran, headed, opens, jobbed, goes_to, halfway, after_feed, turned, through};
ghost use Rattle.waveform.specs.Reading.{after_heading, after_opened, after_jobbed, after_going, after_marked, after_halfway, next, done};
ghost use Rattle.waveform.specs.Texts.{is_dead, end_in, start_by, ends_one, judged};

use feeds::Feed;
use ticks::Instant;

pub mod cursor;
pub mod parts;
pub mod put;
pub mod stretches;

// What a line says: one of those in front, the instant of a mark, the value of the wire for jobs or of the one for feeds.
#[derive(Clone, Copy)]
pub enum Token {
    Head(u32),
    Mark(u64),
    Job(u32),
    Feed(u32),
    Other,
}

// How far a text has come: lines in front; the first mark; the job's value after it; a stretch that began with these values; a
// mark after one; a new value for the job behind such a mark, the feed's as before; or no text of a run begins so.
#[derive(Clone, Copy)]
pub enum State {
    Heading(u32),
    Opened(u64),
    Jobbed(u64, u32),
    Going(u64, u32, u32),
    Marked(u64, u32, u32),
    Halfway(u64, u32, u32),
    Dead,
}

// A text that ends well: the run's start, its end and how many stretches it has.
#[derive(Clone, Copy)]
pub struct Whole {
    pub start: u64,
    pub end: u64,
    pub stretches: usize,
}

// The number of the first line that no text of a run has there.
#[derive(Clone, Copy)]
pub struct WrongLine(pub usize);

impl Token {
    // How many lines stand in front of every run.
    pub const HEADS: u32 = 6;
}

// A mark by what follows its first byte.
fn mark(number: Option<u64>) -> Token
    ensures { result ≡ mark_by number }
{
    number.map_or(Token::Other, Token::Mark)
}

// A value by its wire and its digits.
fn value(wire: u8, number: Option<u64>) -> Token
    requires { Narrow number }
    ensures { result ≡ value_by wire number }
{
    match (wire, number) {
        (b'!', Some(n)) => Token::Job(n as u32),
        (b'"', Some(n)) => Token::Feed(n as u32),
        _ => Token::Other,
    }
}

// A value by what follows its first byte.
#[tactic(auto, using(crate::proofs::Plain::bits_narrow), unfolding(crate::specs::Bytes::value_of))]
fn read_value(s: &[u8]) -> Token
    ensures { result ≡ value_of s.now }
{
    match s {
        [digits @ .., b' ', wire] => value(*wire, text::read_bits(digits)),
        _ => Token::Other,
    }
}

// Which of the lines in front it is.
fn read_head(s: &[u8]) -> Token
    ensures { result ≡ head_in head_lines 0 s.now }
{
    for k in 0..Token::HEADS {
        if s == head(k) {
            return Token::Head(k);
        }
    }
    Token::Other
}

// What a line in front says; nothing where there is none.
fn head(k: u32) -> &'static [u8]
    ensures { result.now ≡ get_or head_lines k [] }
{
    match k {
        0 => b"$timescale 1 ms $end",
        1 => b"$scope module desk $end",
        2 => b"$var wire 32 ! job $end",
        3 => b"$var wire 5 \" feed $end",
        4 => b"$upscope $end",
        5 => b"$enddefinitions $end",
        _ => b"",
    }
}

// What a line says; the newline at its end is not handed in.
pub fn read_line(s: &[u8]) -> Token
    ensures { result ≡ says s.now }
{
    match s {
        [b'#', number @ ..] => mark(text::read_number(number)),
        [b'b', value @ ..] => read_value(value),
        _ => read_head(s),
    }
}

// Never a job and a feed in one tick.
fn alone(job: u32, feed: u32) -> bool
    ensures { result ≡ alone job feed }
{
    job == 0 || feed == 0
}

// Whether these values name whom a tick may go to.
fn may_go(job: u32, feed: u32) -> bool
    ensures { result ≡ alone job feed && leb feed most_feeds }
{
    alone(job, feed) && feed as usize <= Feed::MOST
}

// Whether a mark may tell this instant behind that one: it is later, and the clock can read it.
fn may_come(at: u64, to: u64) -> bool
    ensures { result ≡ ltb at to && leb to last_instant }
{
    Instant(at) < Instant(to) && Instant(to).within()
}

impl State {
    // How far the text has come after one line more.
    pub fn next(self, token: Token) -> State
        ensures { result ≡ next self token }
    {
        use State::{Dead, Going, Halfway, Heading, Jobbed, Marked, Opened};
        match (self, token) {
            (Heading(k), Token::Head(head)) if head == k && k < Token::HEADS => Heading(k + 1),
            (Heading(Token::HEADS), Token::Mark(at)) if Instant(at).within() => Opened(at),
            (Opened(at), Token::Job(job)) if Instant(at) < Instant::LAST => Jobbed(at, job),
            (Jobbed(at, job), Token::Feed(feed)) if may_go(job, feed) => Going(at, job, feed),
            (Going(at, job, feed), Token::Mark(to)) if may_come(at, to) => Marked(to, job, feed),
            (Marked(at, job, feed), Token::Job(new)) if Instant(at) < Instant::LAST && new != job =>
                { Halfway(at, new, feed) }
            (Marked(at, job, feed), Token::Feed(new))
                if Instant(at) < Instant::LAST && new != feed && may_go(job, new) => Going(
                at, job, new,
            ),
            (Halfway(at, job, feed), Token::Mark(to)) if alone(job, feed) && may_come(at, to) => {
                Marked(to, job, feed)
            }
            (Halfway(at, job, feed), Token::Feed(new)) if new != feed && may_go(job, new) => Going(
                at, job, new,
            ),
            _ => Dead,
        }
    }

    // Whether a text may end here.
    pub fn done(self) -> bool
        ensures { result ≡ done self }
    {
        self.end().is_some()
    }

    // The instant at which a text that may end here ends.
    fn end(self) -> Option<u64>
        ensures { result ≡ cond (done self) (Some (end_in self)) None }
    {
        match self {
            State::Opened(at) | State::Marked(at, _, _) => Some(at),
            _ => None,
        }
    }

    // The run's start, which the first mark tells.
    fn start_by(self, start: u64) -> u64
        ensures { result ≡ start_by self start }
    {
        match self {
            State::Opened(at) => at,
            _ => start,
        }
    }

    // Whether the line before ended a stretch.
    fn ended_one(self) -> bool
        ensures { bit result ≡ ends_one self }
    {
        matches!(self, State::Marked(..))
    }

    // Whether no text of a run begins so.
    pub fn is_dead(self) -> bool
        ensures { result ≡ is_dead self }
    {
        matches!(self, State::Dead)
    }
}

// How a text of any bytes is judged, line by line; what follows its last newline is no whole line.
pub fn judge(text: &[u8]) -> Result<Whole, WrongLine>
    ensures { result ≡ judged text.now }
{
    let mut state = State::Heading(0);
    let mut lines = 0;
    let mut start = 0;
    let mut stretches = 0;
    let mut from = 0;
    while from < text.len() {
        let Some(end) = text::line_end(text, from) else {
            return Err(WrongLine(lines + 1));
        };
        state = state.next(read_line(&text[from..end]));
        lines += 1;
        if state.is_dead() {
            return Err(WrongLine(lines));
        }
        start = state.start_by(start);
        stretches += usize::from(state.ended_one());
        from = end + 1;
    }
    match state.end() {
        Some(end) => Ok(Whole {
            start,
            end,
            stretches,
        }),
        None => Err(WrongLine(lines + 1)),
    }
}
