// How the lines of a run go into a lent buffer.
ghost use Rattle.std.specs.Prelude.{◌≡◌, ◌+◌, ◌≤◌, length};
ghost use Rattle.text.specs.Put.{Put};
ghost use Rattle.waveform.specs.Bytes.{value_line, mark_line, written};
ghost use Rattle.waveform.specs.Texts.{as_line};

use crate::Token;

// How many bytes a line takes, its newline too.
#[tactic(auto, using(crate::proofs::Lengths::line_length, crate::proofs::Lengths::value_length))]
pub fn width(line: Token) -> usize
    ensures { result ≡ length (as_line line) }
{
    match line {
        Token::Head(k) => crate::head(k).len() + 1,
        Token::Mark(t) => text::put::width(t) + 2,
        Token::Job(n) | Token::Feed(n) => text::put::width_in_bits(u64::from(n)) + 4,
        Token::Other => 1,
    }
}

fn mark(out: &mut [u8], at: usize, t: u64) -> usize
    requires { at + length (mark_line t) ≤ length out.old }
    ensures { Put out.old out.new at result (mark_line t) }
{
    let a = text::put::byte(out, at, b'#');
    text::put::number(out, a, t)
}

// The value of a wire.
fn value(out: &mut [u8], at: usize, wire: u8, n: u32) -> usize
    requires { at + length (value_line wire n) ≤ length out.old }
    ensures { Put out.old out.new at result (value_line wire n) }
{
    let a = text::put::byte(out, at, b'b');
    let b = text::put::bits(out, a, u64::from(n));
    let c = text::put::byte(out, b, b' ');
    text::put::byte(out, c, wire)
}

// What a line says, without its newline.
fn said(out: &mut [u8], at: usize, line: Token) -> usize
    requires { at + length (written line) ≤ length out.old }
    ensures { Put out.old out.new at result (written line) }
{
    match line {
        Token::Head(k) => text::put::text(out, at, crate::head(k)),
        Token::Mark(t) => mark(out, at, t),
        Token::Job(n) => value(out, at, b'!', n),
        Token::Feed(n) => value(out, at, b'"', n),
        Token::Other => at,
    }
}

// A line with its newline.
#[tactic(auto, using(crate::proofs::Lengths::line_length))]
pub fn line(out: &mut [u8], at: usize, line: Token) -> usize
    requires { at + length (as_line line) ≤ length out.old }
    ensures { Put out.old out.new at result (as_line line) }
{
    let to = said(out, at, line);
    text::put::byte(out, to, b'\n')
}
