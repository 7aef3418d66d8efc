// The telling of a rehearsal: a script is read whole from an input, and each answer is written to an output.
// It must not know the rules: it reads, calls the rehearsal and writes.
#![tactic(auto)]

ghost use Rattle.std.specs.Prelude.{◌≡◌, ◌+◌, ◌≤◌, ◌<◌, length, IfOk, OnErr};
ghost use Rattle.sayings.specs.Texts.{most_text};
ghost use Rattle.telling.specs.Going.{Filled, Ran, Ready, Onto};

use reading::{place_for, read_full};
use rehearsal::{Place, Session};
use sayings::Said;
use std::io;
use std::io::{Read, Write};

// A session under way: where it stands in the input, and how many bytes of the buffer wait to be written.
#[derive(Clone, Copy)]
struct Going {
    session: Session,
    place: Place,
    at: usize,
}

fn tell<W: Write>(sink: &mut W, out: &mut [u8], at: usize, said: Said) -> io::Result<usize>
    requires { (at ≤ length out.old) × (most_text ≤ length out.old) }
    ensures told { IfOk result (λ to. to ≤ length out.old) }
    ensures failed { OnErr result (length out.new ≡ length out.old) }
{
    let to = place_for(sink, out, at, sayings::put::MOST)?;
    Ok(sayings::put::said(out, to, said))
}

// The ticks of a run, if one is under way.
fn run<W: Write>(sink: &mut W, out: &mut [u8], mut going: Going) -> io::Result<Going>
    requires { Filled out.old going.session going.at }
    ensures told { IfOk result (λ ran. Ran out.old going ran) }
    ensures failed { OnErr result (length out.new ≡ length out.old) }
{
    while 0 < going.session.left {
        let reply = going.session.tick();
        going.session = reply.session;
        going.at = tell(sink, out, going.at, reply.said)?;
    }
    Ok(going)
}

// One line and what it answers.
fn hear<W: Write>(input: &[u8], sink: &mut W, out: &mut [u8], going: Going) -> io::Result<Going>
    requires { Ready input.now out.old going }
    ensures told { IfOk result (λ gone. Onto input.now out.old going gone) }
    ensures failed { OnErr result (length out.new ≡ length out.old) }
{
    let read = going.session.read(input, going.place);
    let reply = read.reply;
    let at = tell(sink, out, going.at, reply.said)?;
    let going = Going {
        session: reply.session,
        place: read.place,
        at,
    };
    run(sink, out, going)
}

// Every line of a script, until the rehearsal is over.
fn hear_all<W: Write>(input: &[u8], sink: &mut W) -> io::Result<()> {
    let mut out = [0u8; 4096];
    let mut going = Going {
        session: Session::begin(),
        place: Place { from: 0, lines: 0 },
        at: 0,
    };
    while going.place.from < input.len() && !going.session.over {
        going = hear(input, sink, &mut out, going)?;
    }
    sink.write_all(&out[..going.at])
}

// Rehearses the script that an input holds; one that is too long is only told so.
pub fn rehearse<R: Read, W: Write>(from: &mut R, sink: &mut W) -> io::Result<()> {
    let mut input = [0u8; Place::MOST + 1];
    let n = read_full(from, &mut input)?;
    if Place::MOST < n {
        return sink.write_all(b"too long\n");
    }
    hear_all(&input[..n], sink)
}
