// The showing of a waveform: a text is read whole from an input, and what it tells of a run is written to an output.
// It must not know how a text is judged: it reads, calls the waveform and writes.
#![tactic(auto)]

ghost use Rattle.std.specs.Prelude.{◌≡◌, ◌+◌, ◌≤◌, length, IfOk, OnErr};
ghost use Rattle.showing.specs.Texts.{most_line, line_of};
ghost use Rattle.showing.specs.Answers.{Kept, Added, Listed, RunTold, Answered};

use reading::{place_for, read_full};
use std::io;
use std::io::{Read, Write};
use waveform::stretches::{Bookmark, Stretch, Told};
use waveform::{Whole, WrongLine};

pub mod put;

// What a line shows: the start of the run, one of its stretches, its end; or the number of the line that is wrong.
#[derive(Clone, Copy)]
pub enum Shown {
    Start(u64),
    Ran(Stretch),
    End(u64),
    Wrong(usize),
}

// No longer text is read.
pub const MOST: usize = 1048576;

fn tell<W: Write>(sink: &mut W, out: &mut [u8], at: usize, shown: Shown) -> io::Result<usize>
    requires { (at ≤ length out.old) × (most_line ≤ length out.old) }
    ensures told { IfOk result (λ to. (to ≤ length out.old) × Added out.old out.new at to (line_of shown)) }
    ensures failed { OnErr result (length out.new ≡ length out.old) }
{
    let to = place_for(sink, out, at, put::MOST)?;
    Ok(put::line(out, to, shown))
}

// A line for each stretch, one after another, until no more is told.
fn tell_stretches<W: Write>(
    text: &[u8],
    sink: &mut W,
    out: &mut [u8],
    mut at: usize,
) -> io::Result<usize>
    requires { (at ≤ length out.old) × (most_line ≤ length out.old) }
    ensures told { IfOk result (λ to. (to ≤ length out.old) × Listed text.now out.old out.new at to) }
    ensures failed { OnErr result (length out.new ≡ length out.old) }
{
    let mut mark = Bookmark::FRONT;
    while let Told::Next(ran, on) = waveform::stretches::next(text, mark) {
        at = tell(sink, out, at, Shown::Ran(ran))?;
        mark = on;
    }
    Ok(at)
}

// A run: its start, its stretches, its end.
fn tell_run<W: Write>(text: &[u8], sink: &mut W, out: &mut [u8], run: Whole) -> io::Result<usize>
    requires { most_line ≤ length out.old }
    ensures told { IfOk result (λ at. (at ≤ length out.old) × RunTold text.now out.new run.start run.end at) }
    ensures failed { OnErr result (length out.new ≡ length out.old) }
{
    let a = tell(sink, out, 0, Shown::Start(run.start))?;
    let b = tell_stretches(text, sink, out, a)?;
    tell(sink, out, b, Shown::End(run.end))
}

// The whole answer to a text; its last bytes wait in the buffer.
fn answer<W: Write>(text: &[u8], sink: &mut W, out: &mut [u8]) -> io::Result<usize>
    requires { most_line ≤ length out.old }
    ensures told { IfOk result (λ at. (at ≤ length out.old) × Answered text.now out.new at) }
    ensures failed { OnErr result (length out.new ≡ length out.old) }
{
    match waveform::judge(text) {
        Ok(run) => tell_run(text, sink, out, run),
        Err(WrongLine(line)) => tell(sink, out, 0, Shown::Wrong(line)),
    }
}

fn show_text<W: Write>(text: &[u8], sink: &mut W) -> io::Result<()> {
    let mut out = [0u8; 4096];
    let at = answer(text, sink, &mut out)?;
    sink.write_all(&out[..at])
}

// Zeros, for the longest text and a byte more; of what is then read into it, no proof asks more than the length.
fn room() -> [u8; MOST + 1]
    ensures { length result ≡ 1048577 }
{
    [0u8; MOST + 1]
}

// Shows the waveform that an input holds; a text that is too long is only told so.
pub fn show<R: Read, W: Write>(from: &mut R, sink: &mut W) -> io::Result<()> {
    let mut text = room();
    let n = read_full(from, &mut text)?;
    if MOST < n {
        return sink.write_all(b"too long\n");
    }
    show_text(&text[..n], sink)
}
