// The rehearsal program: the script is standard input.
// It must not know more than where the script comes from.
#![tactic(auto)]

use std::io;

fn main(rt: HostRuntime) -> io::Result<()> {
    telling::rehearse(&mut rt.stdin(), &mut rt.stdout())
}
