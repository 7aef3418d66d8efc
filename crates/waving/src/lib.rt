// The waving of a script: it is read whole from an input, and the waveform of its ticks is written to an output.
// It must not know the rules, nor how a line is written: it reads, calls the rehearsal and the runs, and writes.
#![tactic(auto)]

ghost use Rattle.std.specs.Prelude.{◌≤◌, ◌<◌, IfOk, ◌≡◌, length, OnErr};
ghost use Rattle.waving.specs.Going.{Ready, Onto};

use reading::read_full;
use rehearsal::{Place, Session};
use std::io;
use std::io::{Read, Write};
use waveform::cursor::Cursor;

// A script under way: the session, where it stands in the input, and the cursor of its run, empty before the desk is open.
#[derive(Clone, Copy)]
struct Going {
    session: Session,
    place: Place,
    cursor: Cursor,
}

// The cursor after a line: a run begins with the opening that says yes, and only there.
fn begun(session: Session, cursor: Cursor) -> Cursor {
    if session.opened && !session.over && cursor.is_none() {
        runs::begin(session.desk).unwrap_or(cursor)
    } else {
        cursor
    }
}

// How many ticks are left to run after so many steps. With room for every line that is due, a call takes no step only where
// that step is refused, and a refused step ends its run.
fn left_after(left: u32, steps: u32) -> u32
    requires { (0 < left) × (steps ≤ left) }
    ensures { result < left }
{
    if steps == 0 { 0 } else { left - steps }
}

// The ticks that a line left to run, if any.
fn run<W: Write>(sink: &mut W, out: &mut [u8], mut going: Going) -> io::Result<Going>
    ensures there { IfOk result (λ ran. ran.place ≡ going.place) }
    ensures failed { OnErr result (length out.new ≡ length out.old) }
{
    while 0 < going.session.left {
        let left = going.session.left;
        let went = runs::go_on(going.session.desk, going.cursor, left, out);
        sink.write_all(&out[..went.bytes])?;
        going.session.desk = went.desk;
        going.session.left = left_after(left, went.steps);
        going.cursor = went.cursor;
    }
    Ok(going)
}

// One line, and its ticks.
fn hear<W: Write>(input: &[u8], sink: &mut W, out: &mut [u8], going: Going) -> io::Result<Going>
    requires { Ready input.now going }
    ensures told { IfOk result (λ gone. Onto input.now going gone) }
    ensures failed { OnErr result (length out.new ≡ length out.old) }
{
    let read = going.session.read(input, going.place);
    let session = read.reply.session;
    let going = Going {
        session,
        place: read.place,
        cursor: begun(session, going.cursor),
    };
    run(sink, out, going)
}

// Closes a run: what is still to be written of it, part by part.
fn close<W: Write>(sink: &mut W, out: &mut [u8], mut cursor: Cursor) -> io::Result<()>
    ensures { OnErr result (length out.new ≡ length out.old) }
{
    while !cursor.is_none() {
        let closed = waveform::parts::close(cursor, out);
        if closed.bytes == 0 {
            break;
        }
        sink.write_all(&out[..closed.bytes])?;
        cursor = closed.cursor;
    }
    Ok(())
}

// Every line of a script, until the rehearsal is over; there its run is closed.
fn hear_all<W: Write>(input: &[u8], sink: &mut W) -> io::Result<()> {
    let mut out = [0u8; 4096];
    let mut going = Going {
        session: Session::begin(),
        place: Place { from: 0, lines: 0 },
        cursor: Cursor::none(),
    };
    while going.place.from < input.len() && !going.session.over {
        going = hear(input, sink, &mut out, going)?;
    }
    close(sink, &mut out, going.cursor)
}

// Writes the waveform of the script that an input holds; one that is too long is only told so.
pub fn wave<R: Read, W: Write>(from: &mut R, sink: &mut W) -> io::Result<()> {
    let mut input = [0u8; Place::MOST + 1];
    let n = read_full(from, &mut input)?;
    if Place::MOST < n {
        return sink.write_all(b"too long\n");
    }
    hear_all(&input[..n], sink)
}
