// The rehearsal's pairs: each argument names a script, which is rehearsed under its name.
// It must not know more than where the scripts come from.
#![tactic(auto)]

use std::env::FillError;
use std::fs::File;
use std::io;
use std::io::Write;
use std::rt::{Env, Files};

// The script of that name, where there is one.
fn opened<R: Files>(rt: &R, path: &[u8]) -> Option<R::File> {
    let name = str::from_utf8(path).ok()?;
    File::open(rt, name).ok()
}

// One script's name on a line, and what the script answers.
fn pair<R: Files, W: Write>(rt: &R, sink: &mut W, path: &[u8]) -> io::Result<()> {
    sink.write_all(b"== ")?;
    sink.write_all(path)?;
    sink.write_all(b"\n")?;
    let Some(mut from) = opened(rt, path) else {
        return sink.write_all(b"no such script\n");
    };
    telling::rehearse(&mut from, sink)
}

// The pair of an argument, and whether there is that argument; one that is too long names no script.
fn pair_of<R: Env + Files, W: Write>(rt: &R, sink: &mut W, argument: usize) -> io::Result<bool> {
    let mut path = [0u8; 4096];
    let n = match rt.arg(argument, &mut path) {
        Ok(n) => n,
        Err(FillError::TooLong) => 0,
        Err(FillError::NotPresent) => return Ok(false),
    };
    pair(rt, sink, &path[..n])?;
    Ok(true)
}

fn main(rt: HostRuntime) -> io::Result<()> {
    for argument in 1..usize::MAX {
        if !pair_of(&rt, &mut rt.stdout(), argument)? {
            break;
        }
    }
    Ok(())
}
