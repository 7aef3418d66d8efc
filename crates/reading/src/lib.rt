// Reading into a lent buffer, up to its end, and the place for more in one whose bytes are written out.
// It must not know where the bytes come from or go to, nor what they say.
#![tactic(auto)]

ghost use Rattle.std.specs.Prelude.{◌≡◌, ◌⊎◌, ◌+◌, ◌≤◌, ◌<◌, length, take, IfOk, OnErr};
ghost use Rattle.std.specs.Io.{ReadsAtMost};
ghost use Rattle.std.specs.Io.KnownBytes.{Appends, Consumes, IsAtEnd};

use std::io;
use std::io::{Read, Write};

// Reads until the buffer is full or the input ends, and hands out how many bytes it put at the buffer's front.
// A read that a signal interrupts counts as one that failed.
pub fn read_full<R: Read>(from: &mut R, buf: &mut [u8]) -> io::Result<usize>
    ensures bound { ReadsAtMost result buf.new }
    ensures bytes { IfOk result (λ n. Consumes (R.remaining from.old) (R.remaining from.new) (take n buf.new)) }
    ensures end { IfOk result (λ n. n < length buf.new → IsAtEnd (R.remaining from.new)) }
    ensures failed { OnErr result (length buf.new ≡ length buf.old) }
{
    let mut done = 0;
    while done < buf.len() {
        let n = from.read(&mut buf[done..])?;
        if n == 0 {
            break;
        }
        done += n;
    }
    Ok(done)
}

// The place for so many bytes more in a lent buffer: what waits there is written first where there may be no room.
pub fn place_for<W: Write>(sink: &mut W, out: &[u8], at: usize, most: usize) -> io::Result<usize>
    requires { (at ≤ length out.now) × (most ≤ length out.now) }
    ensures room { IfOk result (λ to. to + most ≤ length out.now) }
    ensures place { IfOk result (λ to. (to ≡ at × (at + most ≤ length out.now × W.contents sink.new ≡ W.contents sink.old)) ⊎ (to ≡ 0 × (length out.now < at + most × Appends (W.contents sink.old) (W.contents sink.new) (take at out.now)))) }
    ensures failed { OnErr result (length out.now < at + most) }
{
    if most <= out.len() - at {
        return Ok(at);
    }
    sink.write_all(&out[..at])?;
    Ok(0)
}
