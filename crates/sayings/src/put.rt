// The text of an answer, put into a lent buffer.
ghost use Rattle.std.specs.Prelude.{◌++◌, ◌+◌, ◌≤◌, length};
ghost use Rattle.text.specs.Put.{Put};
ghost use Rattle.text.specs.Numbers.{digits};
ghost use Rattle.sayings.specs.Texts.{most_text, verdict_text, call_text, ask_text, who_text, tick_text, text_of};

use crate::Said;
use answers::Who;
use text::put::worded;

// No answer is longer than this.
pub const MOST: usize = 64;

// A yes in its word, or `no` and the number.
fn verdict(out: &mut [u8], at: usize, yes: &[u8], refusal: u32) -> usize
    requires { (at + 32 ≤ length out.old) × (length yes.now ≤ 8) }
    ensures { Put out.old out.new at result (verdict_text yes.now refusal) }
{
    if refusal == 0 {
        text::put::text(out, at, yes)
    } else {
        worded(out, at, b"no ", u64::from(refusal), b"\n")
    }
}

// `ok`, or `no` and the number, after a word.
fn called(out: &mut [u8], at: usize, word: &[u8], refusal: u32) -> usize
    requires { (at + most_text ≤ length out.old) × (length word.now ≤ 8) }
    ensures { Put out.old out.new at result (call_text word.now refusal) }
{
    let a = text::put::text(out, at, word);
    verdict(out, a, b"ok\n", refusal)
}

fn asked(out: &mut [u8], at: usize, number: u32, refusal: u32) -> usize
    requires { at + most_text ≤ length out.old }
    ensures { Put out.old out.new at result (ask_text number refusal) }
{
    let a = worded(out, at, b"ask ", u64::from(number), b" ");
    verdict(out, a, b"yes\n", refusal)
}

// Whom a tick goes to.
fn named(out: &mut [u8], at: usize, who: Who) -> usize
    requires { at + 32 ≤ length out.old }
    ensures { Put out.old out.new at result (who_text who) }
{
    match who {
        Who::Job(number) => worded(out, at, b" job ", u64::from(number), b"\n"),
        Who::Feed(position) => worded(out, at, b" feed ", u64::from(position), b"\n"),
        Who::Idle => text::put::text(out, at, b" idle\n"),
    }
}

// The instant of a tick and whom it goes to.
#[tactic(auto, using(text::proofs::Numbers::digits_wide, text::proofs::Texts::put_length))]
fn ticked(out: &mut [u8], at: usize, instant: u64, who: Who) -> usize
    requires { at + most_text ≤ length out.old }
    ensures { Put out.old out.new at result (tick_text instant who) }
{
    let a = text::put::number(out, at, instant);
    named(out, a, who)
}

// The text of what is said.
#[tactic(auto, using(text::proofs::Texts::put_nothing), unfolding(crate::specs::Texts::text_of))]
pub fn said(out: &mut [u8], at: usize, said: Said) -> usize
    requires { at + most_text ≤ length out.old }
    ensures { Put out.old out.new at result (text_of said) }
{
    match said {
        Said::Nothing => at,
        Said::Bad(line) => worded(out, at, b"line ", line as u64, b" bad\n"),
        Said::Go(refusal) => called(out, at, b"go ", refusal),
        Said::Ask(number, refusal) => asked(out, at, number, refusal),
        Said::End(refusal) => called(out, at, b"end ", refusal),
        Said::Rest(refusal) => called(out, at, b"rest ", refusal),
        Said::Tick(instant, who) => ticked(out, at, instant, who),
        Said::Stopped(refusal) => worded(out, at, b"run no ", u64::from(refusal), b"\n"),
    }
}
