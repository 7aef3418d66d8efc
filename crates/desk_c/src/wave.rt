// The calls that write a run of steps as a waveform and read one back: cursors and answers by value, each flag as a number.
// It must not know what a waveform looks like.
ghost use Rattle.std.specs.Prelude.{◌≡◌, length};
ghost use Rattle.answers.specs.Answers.{on_yes};
ghost use Rattle.waveform.specs.Parts.{closed_of, closing_bytes};
ghost use Rattle.waveform.specs.Texts.{judged};
ghost use Rattle.waveform.specs.Telling.{next_told};
ghost use Rattle.runs.specs.Parts.{begun_of, went_of, went_bytes};
ghost use Rattle.desk_c.specs.Waves.{cursor_of, flat_cursor, flat_begun, flat_waved, flat_closed, in_front};
ghost use Rattle.desk_c.specs.Waves.{flat_read, no_stretch, one_stretch, at_end, flat_told};

use answers::{Refusal, Verdict};
use desk::Desk;
use waveform::cursor::Due;
use waveform::stretches::{Bookmark, Told};
use waveform::{Whole, WrongLine};

// A run that is being written: since when the same one runs, the clock, the values of the two wires and how many of the lines in
// front are written; and the flags, 0 for no and anything else for yes: whether a step was taken, and what is due.
#[repr(C)]
#[derive(Clone, Copy)]
pub struct Cursor {
    pub since: u64,
    pub clock: u64,
    pub number: u32,
    pub position: u32,
    pub ran: u32,
    pub heads: u32,
    pub mark: u32,
    pub job: u32,
    pub feed: u32,
}

// The cursor of a run that begins, empty where that is refused.
#[repr(C)]
#[derive(Clone, Copy)]
pub struct Begun {
    pub cursor: Cursor,
    pub refusal: u32,
}

// The state and the cursor after so many steps, and how many bytes were written; as given where it is refused.
#[repr(C)]
#[derive(Clone, Copy)]
pub struct Waved {
    pub desk: Desk,
    pub cursor: Cursor,
    pub refusal: u32,
    pub steps: u32,
    pub bytes: usize,
}

// The cursor after so many bytes, as given where it is refused.
#[repr(C)]
#[derive(Clone, Copy)]
pub struct Closed {
    pub cursor: Cursor,
    pub refusal: u32,
    pub bytes: usize,
}

// The first line that no waveform has there; or the run's start and end, and how many stretches it has. All else 0.
#[repr(C)]
#[derive(Clone, Copy)]
pub struct Read {
    pub refusal: u32,
    pub line: usize,
    pub start: u64,
    pub end: u64,
    pub stretches: usize,
}

// Where the reading stands, and the stretch that it has come over; no ticks where the text ends. Refused: where it stood, the
// line for 20, and all else 0.
#[repr(C)]
#[derive(Clone, Copy)]
pub struct Stretch {
    pub reading: Bookmark,
    pub refusal: u32,
    pub line: usize,
    pub from: u64,
    pub to: u64,
    pub kind: u32,
    pub number: u32,
}

impl From<Cursor> for waveform::cursor::Cursor {
    ghost from_gives = { λ flat cursor. cursor ≡ cursor_of flat };

    fn from(flat: Cursor) -> waveform::cursor::Cursor {
        waveform::cursor::Cursor {
            ran: flat.ran != 0,
            due: Due {
                heads: flat.heads,
                mark: flat.mark != 0,
                job: flat.job != 0,
                feed: flat.feed != 0,
            },
            since: flat.since,
            clock: flat.clock,
            number: flat.number,
            position: flat.position,
        }
    }
}

impl From<waveform::cursor::Cursor> for Cursor {
    ghost from_gives = { λ cursor flat. flat ≡ flat_cursor cursor };

    fn from(cursor: waveform::cursor::Cursor) -> Cursor {
        let due = cursor.due;
        Cursor {
            since: cursor.since,
            clock: cursor.clock,
            number: cursor.number,
            position: cursor.position,
            ran: u32::from(cursor.ran),
            heads: due.heads,
            mark: u32::from(due.mark),
            job: u32::from(due.job),
            feed: u32::from(due.feed),
        }
    }
}

// A refused cursor comes back word for word, whatever its flags have for yes.
fn cursor_after(verdict: Verdict, after: waveform::cursor::Cursor, given: Cursor) -> Cursor
    ensures { result ≡ on_yes verdict (flat_cursor after) given }
{
    match verdict {
        Ok(()) => after.into(),
        Err(_) => given,
    }
}

fn flat_begun(begun: Result<waveform::cursor::Cursor, Refusal>) -> Begun
    ensures { result ≡ flat_begun begun }
{
    match begun {
        Ok(cursor) => Begun {
            cursor: cursor.into(),
            refusal: 0,
        },
        Err(refusal) => Begun {
            cursor: waveform::cursor::Cursor::NONE.into(),
            refusal: refusal.number(),
        },
    }
}

fn flat_waved(given: Cursor, went: runs::Went) -> Waved
    ensures { result ≡ flat_waved given went }
{
    Waved {
        desk: went.desk,
        cursor: cursor_after(went.verdict, went.cursor, given),
        refusal: answers::answer(went.verdict),
        steps: went.steps,
        bytes: went.bytes,
    }
}

fn flat_closed(given: Cursor, closed: waveform::parts::Closed) -> Closed
    ensures { result ≡ flat_closed given closed }
{
    Closed {
        cursor: cursor_after(closed.verdict, closed.cursor, given),
        refusal: answers::answer(closed.verdict),
        bytes: closed.bytes,
    }
}

fn flat_read(judged: Result<Whole, WrongLine>) -> Read
    ensures { result ≡ flat_read judged }
{
    match judged {
        Ok(whole) => Read {
            refusal: 0,
            line: 0,
            start: whole.start,
            end: whole.end,
            stretches: whole.stretches,
        },
        Err(WrongLine(line)) => Read {
            refusal: Refusal::NoWaveform.number(),
            line,
            start: 0,
            end: 0,
            stretches: 0,
        },
    }
}

fn no_stretch(given: Bookmark, refusal: Refusal, line: usize) -> Stretch
    ensures { result ≡ no_stretch given refusal line }
{
    Stretch {
        reading: given,
        refusal: refusal.number(),
        line,
        from: 0,
        to: 0,
        kind: 0,
        number: 0,
    }
}

fn one_stretch(reading: Bookmark, stretch: waveform::stretches::Stretch) -> Stretch
    ensures { result ≡ one_stretch reading stretch }
{
    Stretch {
        reading,
        refusal: 0,
        line: 0,
        from: stretch.from,
        to: stretch.to,
        kind: stretch.who.kind(),
        number: stretch.who.name(),
    }
}

// No ticks, at the end of a text.
fn at_end(reading: Bookmark) -> Stretch
    ensures { result ≡ at_end reading }
{
    Stretch {
        reading,
        refusal: 0,
        line: 0,
        from: reading.at,
        to: reading.at,
        kind: 0,
        number: 0,
    }
}

fn flat_told(given: Bookmark, told: Told) -> Stretch
    ensures { result ≡ flat_told given told }
{
    match told {
        Told::Disorder => no_stretch(given, Refusal::NotInOrder, 0),
        Told::Wrong(line) => no_stretch(given, Refusal::NoWaveform, line),
        Told::Next(stretch, reading) => one_stretch(reading, stretch),
        Told::Over(reading) => at_end(reading),
    }
}

// Beginning a run at the desk's clock.
#[unsafe(no_mangle)]
pub extern "C" fn desk_wave_begin(desk: Desk) -> Begun
    ensures { result ≡ flat_begun (begun_of desk) }
{
    flat_begun(runs::begin(desk))
}

// Carrying it on by so many steps at most; its lines go into the front of a lent buffer.
#[unsafe(no_mangle)]
pub extern "C" fn desk_wave(desk: Desk, cursor: Cursor, steps: u32, buffer: &mut [u8]) -> Waved
    ensures { (result ≡ flat_waved cursor (went_of (length buffer.old) steps desk (cursor_of cursor))) × (buffer.new ≡ in_front (went_bytes (length buffer.old) steps desk (cursor_of cursor)) buffer.old) }
{
    flat_waved(cursor, runs::go_on(desk, cursor.into(), steps, buffer))
}

// Closing it, call after call until nothing is written.
#[unsafe(no_mangle)]
pub extern "C" fn desk_wave_close(cursor: Cursor, buffer: &mut [u8]) -> Closed
    ensures { (result ≡ flat_closed cursor (closed_of (length buffer.old) (cursor_of cursor))) × (buffer.new ≡ in_front (closing_bytes (length buffer.old) (cursor_of cursor)) buffer.old) }
{
    flat_closed(cursor, waveform::parts::close(cursor.into(), buffer))
}

// What a whole text tells of a run.
#[unsafe(no_mangle)]
pub extern "C" fn desk_wave_read(text: &[u8]) -> Read
    ensures { result ≡ flat_read (judged text.now) }
{
    flat_read(waveform::judge(text))
}

// The next stretch of a text, from where a reading stands.
#[unsafe(no_mangle)]
pub extern "C" fn desk_wave_stretch(text: &[u8], reading: Bookmark) -> Stretch
    ensures { result ≡ flat_told reading (next_told text.now reading) }
{
    flat_told(reading, waveform::stretches::next(text, reading))
}
