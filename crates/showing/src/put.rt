// The text of a line, put into a lent buffer.
ghost use Rattle.std.specs.Prelude.{◌+◌, ◌≤◌, length};
ghost use Rattle.text.specs.Put.{Put};
ghost use Rattle.showing.specs.Texts.{most_line, who_text, stretch_text, line_of};

use crate::Shown;
use answers::Who;
use text::put::worded;
use waveform::stretches::Stretch;

// No line is longer than this.
pub const MOST: usize = 68;

#[tactic(auto, unfolding(crate::specs::Texts::who_text))]
fn who(out: &mut [u8], at: usize, who: Who) -> usize
    requires { at + 26 ≤ length out.old }
    ensures { Put out.old out.new at result (who_text who) }
{
    match who {
        Who::Job(number) => worded(out, at, b"job ", u64::from(number), b"\n"),
        Who::Feed(position) => worded(out, at, b"feed ", u64::from(position), b"\n"),
        Who::Idle => text::put::text(out, at, b"idle\n"),
    }
}

fn stretch(out: &mut [u8], at: usize, stretch: Stretch) -> usize
    requires { at + most_line ≤ length out.old }
    ensures { Put out.old out.new at result (stretch_text stretch) }
{
    let a = worded(out, at, b"", stretch.from, b" ");
    let b = worded(out, a, b"", stretch.to, b" ");
    who(out, b, stretch.who)
}

// The text of a line.
#[tactic(auto, unfolding(crate::specs::Texts::line_of))]
pub fn line(out: &mut [u8], at: usize, shown: Shown) -> usize
    requires { at + most_line ≤ length out.old }
    ensures { Put out.old out.new at result (line_of shown) }
{
    match shown {
        Shown::Start(instant) => worded(out, at, b"start ", instant, b"\n"),
        Shown::Ran(ran) => stretch(out, at, ran),
        Shown::End(instant) => worded(out, at, b"end ", instant, b"\n"),
        Shown::Wrong(line) => worded(out, at, b"line ", line as u64, b"\n"),
    }
}
