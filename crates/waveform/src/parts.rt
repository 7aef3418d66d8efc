// A text in parts: as many of the lines that are due as fit go into a lent buffer, never part of one.
ghost use Rattle.std.specs.Prelude.{◌≡◌, not, ◌&&◌, ◌||◌, ◌++◌, ◌-◌, ◌≤◌, eqb, length, drop};
ghost use Rattle.text.specs.Put.{Put};
ghost use Rattle.waveform.specs.Order.{ordered, is_none};
ghost use Rattle.waveform.specs.Parts.{bytes_of, wrote_all, due_fitting, closing_fitting, after_closing, refused, closed_of, closing_bytes};

use crate::Token;
use crate::cursor::Cursor;
use answers::{Refusal, Verdict};

// A run that is being written, and the place in the buffer behind what is written.
#[derive(Clone, Copy)]
pub struct Page {
    pub cursor: Cursor,
    pub at: usize,
}

// The cursor that closing hands back, its answer, and how many bytes it wrote.
#[derive(Clone, Copy)]
pub struct Closed {
    pub cursor: Cursor,
    pub verdict: Verdict,
    pub bytes: usize,
}

impl Page {
    // Whether there are lines to write, and not even the first one fitted.
    fn is_stuck(self) -> bool
        ensures { result ≡ eqb self.at 0 && not (is_none self.cursor) }
    {
        self.at == 0 && !self.cursor.is_none()
    }
}

impl Closed {
    // Nothing is written, and the cursor stays as it was.
    fn refused(cursor: Cursor, refusal: Refusal) -> Closed
        ensures { result ≡ refused cursor refusal }
    {
        Closed {
            cursor,
            verdict: Err(refusal),
            bytes: 0,
        }
    }
}

// Whether a cursor can be closed: one in order, and an empty one.
fn can_close(cursor: Cursor) -> bool
    ensures { result ≡ is_none cursor || ordered cursor }
{
    cursor.is_none() || cursor.in_order()
}

// Writes the lines that are due while they fit.
pub fn write_due(out: &mut [u8], mut at: usize, mut cursor: Cursor) -> Page
    requires { at ≤ length out.old }
    ensures { Put out.old out.new at result.at (bytes_of (due_fitting (length out.old - at) cursor)) × (result.cursor ≡ wrote_all (due_fitting (length out.old - at) cursor) cursor) }
{
    while let Some(line) = cursor.first() {
        if out.len() - at < crate::put::width(line) {
            break;
        }
        at = crate::put::line(out, at, line);
        cursor = cursor.wrote();
    }
    Page { cursor, at }
}

// Writes the lines that end a run while they fit; where they all do, no run is being written any more.
fn write_end(out: &mut [u8], cursor: Cursor) -> Page
    ensures { Put out.old out.new 0 result.at (bytes_of (closing_fitting (length out.old) cursor)) × (result.cursor ≡ after_closing (closing_fitting (length out.old) cursor) cursor) }
{
    if cursor.is_none() {
        return Page {
            cursor: Cursor::NONE,
            at: 0,
        };
    }
    let page = write_due(out, 0, cursor);
    if page.cursor.due.any() {
        return page;
    }
    if !cursor.ran {
        return Page {
            cursor: Cursor::NONE,
            ..page
        };
    }
    let last = Token::Mark(cursor.clock);
    if out.len() - page.at < crate::put::width(last) {
        return page;
    }
    Page {
        cursor: Cursor::NONE,
        at: crate::put::line(out, page.at, last),
    }
}

// Ends a run: what is due, then the mark at its end.
pub fn close(cursor: Cursor, out: &mut [u8]) -> Closed
    ensures { (result ≡ closed_of (length out.old) cursor) × (out.new ≡ closing_bytes (length out.old) cursor ++ drop (length (closing_bytes (length out.old) cursor)) out.old) }
{
    if !can_close(cursor) {
        return Closed::refused(cursor, Refusal::NotInOrder);
    }
    let page = write_end(out, cursor);
    if page.is_stuck() {
        return Closed::refused(cursor, Refusal::ShortBuffer);
    }
    Closed {
        cursor: page.cursor,
        verdict: Ok(()),
        bytes: page.at,
    }
}
