// The sayings of a rehearsal: what an answer says, and its text, put into a lent buffer.
// It must not know the desk: a refusal comes to it as its number.
#![tactic(auto)]

pub mod put;

use answers::Who;

// What an answer says: of a line, of a call, of a tick at an instant, or of a run that a refused step has ended. A refusal is
// told by its number, any number, and 0 is a yes.
#[derive(Clone, Copy)]
pub enum Said {
    Nothing,
    Bad(usize),
    Go(u32),
    Ask(u32, u32),
    End(u32),
    Rest(u32),
    Tick(u64, Who),
    Stopped(u32),
}
