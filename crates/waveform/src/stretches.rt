// The stretches of a text, one at a time: a bookmark stands at the front or behind a mark, and a call reads on from there to the
// mark that ends the next stretch.
ghost use Rattle.std.specs.Prelude.{◌≡◌};
ghost use Rattle.waveform.specs.Reading.{who_by};
ghost use Rattle.waveform.specs.Telling.{since_in, behind, ending_at, stands_at, next_told};

use crate::State;
use answers::Who;

// Where the reading of a text stands: the place of the next byte, how many whole lines are before it, the instant of the mark that
// is the last of them, and the values of the two wires before that mark. The place 0 is the front, whatever the rest says.
#[repr(C)]
#[derive(Clone, Copy)]
pub struct Bookmark {
    pub place: usize,
    pub lines: usize,
    pub at: u64,
    pub job: u32,
    pub feed: u32,
}

// The ticks from one instant up to another went to this one.
#[derive(Clone, Copy)]
pub struct Stretch {
    pub from: u64,
    pub to: u64,
    pub who: Who,
}

// What is told from a bookmark on: that it stands in no such text; the number of the line that no text of a run has there; the next
// stretch, and the bookmark behind it; or that the text ends well there, and the bookmark at its end.
#[derive(Clone, Copy)]
pub enum Told {
    Disorder,
    Wrong(usize),
    Next(Stretch, Bookmark),
    Over(Bookmark),
}

// Whom a stretch goes to by the values of the two wires.
fn who_by(job: u32, feed: u32) -> Who
    ensures { result ≡ who_by job feed }
{
    match (job, feed) {
        (0, 0) => Who::Idle,
        (0, feed) => Who::Feed(feed),
        (job, _) => Who::Job(job),
    }
}

// Since when the stretch goes that a mark can end.
fn since(state: State) -> u64
    ensures { result ≡ since_in state }
{
    match state {
        State::Going(at, _, _) | State::Halfway(at, _, _) => at,
        _ => 0,
    }
}

// The bookmark behind a mark.
fn behind(state: State, place: usize, lines: usize) -> Bookmark
    ensures { result ≡ behind state place lines }
{
    let here = Bookmark {
        place,
        lines,
        ..Bookmark::FRONT
    };
    match state {
        State::Opened(at) => Bookmark { at, ..here },
        State::Marked(at, job, feed) => Bookmark {
            at,
            job,
            feed,
            ..here
        },
        _ => here,
    }
}

impl Bookmark {
    // Where every reading begins.
    pub const FRONT: Bookmark = Bookmark {
        place: 0,
        lines: 0,
        at: 0,
        job: 0,
        feed: 0,
    };

    // How far the text has come where it stands.
    fn state(self) -> State
        ensures { result ≡ stands_at self }
    {
        if self.place == 0 {
            State::Heading(0)
        } else {
            State::Marked(self.at, self.job, self.feed)
        }
    }

    // The stretch that ended at its mark.
    fn ended(self, from: u64) -> Stretch
        ensures { result ≡ ending_at self from }
    {
        Stretch {
            from,
            to: self.at,
            who: who_by(self.job, self.feed),
        }
    }
}

// The next stretch of any text from any bookmark on.
pub fn next(text: &[u8], mark: Bookmark) -> Told
    ensures { result ≡ next_told text.now mark }
{
    if mark.place < mark.lines || text.len() < mark.place {
        return Told::Disorder;
    }
    let mut state = mark.state();
    let mut lines = mark.lines;
    let mut place = mark.place;
    while place < text.len() {
        let Some(end) = text::line_end(text, place) else {
            return Told::Wrong(lines + 1);
        };
        let from = since(state);
        state = state.next(crate::read_line(&text[place..end]));
        lines += 1;
        place = end + 1;
        if state.is_dead() {
            return Told::Wrong(lines);
        }
        if state.ended_one() {
            let here = behind(state, place, lines);
            return Told::Next(here.ended(from), here);
        }
    }
    if state.done() {
        Told::Over(behind(state, place, lines))
    } else {
        Told::Wrong(lines + 1)
    }
}
