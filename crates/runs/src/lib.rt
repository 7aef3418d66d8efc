// A run of the desk's steps, written as a waveform while it goes: begun at the desk's clock, and carried on part by part.
// It must not know how a line is written, nor how a step is answered.
#![tactic(auto)]

ghost use Rattle.std.specs.Prelude.{◌≡◌, ◌&&◌, ◌++◌, eqb, length, drop};
ghost use Rattle.waveform.specs.Cursors.{any_due};
ghost use Rattle.runs.specs.Parts.{begun_of, ordered_at, part_of, Carried, refused_went, went_of, went_bytes};

use answers::{Refusal, Verdict};
use desk::Desk;
use waveform::cursor::Cursor;
use waveform::parts::Page;

// The desk and the cursor that going on hands back and its answer; how many bytes it wrote and how many steps it took.
#[derive(Clone, Copy)]
pub struct Went {
    pub desk: Desk,
    pub cursor: Cursor,
    pub verdict: Verdict,
    pub bytes: usize,
    pub steps: u32,
}

// A part under way.
#[derive(Clone, Copy)]
struct Going {
    desk: Desk,
    page: Page,
    steps: u32,
}

impl Went {
    // A part that is refused: everything as it was.
    fn refused(desk: Desk, cursor: Cursor, refusal: Refusal) -> Went
        ensures { result ≡ refused_went desk cursor refusal }
    {
        Went {
            desk,
            cursor,
            verdict: Err(refusal),
            bytes: 0,
            steps: 0,
        }
    }
}

// Begins a run at the desk's clock.
pub fn begin(desk: Desk) -> Result<Cursor, Refusal>
    ensures { result ≡ begun_of desk }
{
    Refusal::NotInOrder.when(!desk.in_order())?;
    Ok(Cursor::begin(desk.ledger.clock.0))
}

// Whether the cursor is in order and stands at the desk's clock.
#[tactic(auto, unfolding(crate::specs::Parts::ordered_at))]
fn ordered_at(desk: Desk, cursor: Cursor) -> bool
    ensures { result ≡ ordered_at desk.ledger.clock.0 cursor }
{
    cursor.clock == desk.ledger.clock.0 && cursor.in_order()
}

// What is due while it fits, then steps, each with its lines: up to so many steps, a line that does not fit or a step that is
// refused.
fn carry(out: &mut [u8], desk: Desk, cursor: Cursor, most: u32) -> Going
    requires { cursor.clock ≡ desk.ledger.clock.0 }
    ensures { Carried out.old out.new (part_of (length out.old) most desk cursor) result.desk result.page.cursor result.page.at result.steps }
{
    let mut desk = desk;
    let mut page = waveform::parts::write_due(out, 0, cursor);
    let mut steps = 0;
    while steps < most {
        if page.cursor.due.any() {
            break;
        }
        let stepped = desk.step();
        if stepped.verdict.is_err() {
            break;
        }
        desk = stepped.desk;
        page = waveform::parts::write_due(out, page.at, page.cursor.stepped(stepped.who));
        steps += 1;
    }
    Going { desk, page, steps }
}

// Whether a line is due, and not even the first one fitted.
fn is_stuck(bytes: usize, cursor: Cursor) -> bool
    ensures { result ≡ eqb bytes 0 && any_due cursor.due }
{
    bytes == 0 && cursor.due.any()
}

// Carries a run on by so many steps at most.
pub fn go_on(desk: Desk, cursor: Cursor, most: u32, out: &mut [u8]) -> Went
    ensures { (result ≡ went_of (length out.old) most desk cursor) × (out.new ≡ went_bytes (length out.old) most desk cursor ++ drop (length (went_bytes (length out.old) most desk cursor)) out.old) }
{
    if !desk.in_order() {
        return Went::refused(desk, cursor, Refusal::NotInOrder);
    }
    if !ordered_at(desk, cursor) {
        return Went::refused(desk, cursor, Refusal::NotInOrder);
    }
    let going = carry(out, desk, cursor, most);
    if is_stuck(going.page.at, going.page.cursor) {
        return Went::refused(desk, cursor, Refusal::ShortBuffer);
    }
    Went {
        desk: going.desk,
        cursor: going.page.cursor,
        verdict: Ok(()),
        bytes: going.page.at,
        steps: going.steps,
    }
}
