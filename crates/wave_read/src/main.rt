// The program that reads a waveform: the text is standard input.
// It must not know more than where the text comes from.
#![tactic(auto)]

use std::io;

fn main(rt: HostRuntime) -> io::Result<()> {
    showing::show(&mut rt.stdin(), &mut rt.stdout())
}
