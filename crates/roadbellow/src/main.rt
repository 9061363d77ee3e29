// The program: a tape from standard input, and its lines to standard output. What the lines are is proved of `lines::print::print`; here are
// only the streams.

#![tactic(auto)]

ghost use Rattle.std.specs.Prelude.{◌≤◌, length, IfOk};

use std::io::{self, Read, Write};

// Reads until the buffer is full or the input ends, and answers how many bytes it put at the buffer's start. A read that is no end moves a byte at
// least, so there are no more of them than bytes.
fn read_full(input: &mut impl Read, buffer: &mut [u8]) -> io::Result<usize>
    ensures { IfOk result (λ n. n ≤ length buffer.new) }
{
    let mut size = 0;
    for _ in 0..buffer.len() {
        let read = input.read(&mut buffer[size..])?;
        if read == 0 {
            break;
        }
        size += read;
    }
    Ok(size)
}

fn main(rt: HostRuntime) -> io::Result<()> {
    // One byte more than a tape may have, so that a longer one is seen to be longer. Input in pieces is read until it ends.
    let mut tape = [0u8; 65537];
    let size = read_full(&mut rt.stdin(), &mut tape)?;
    let mut out = [0u8; 41613];
    let end = lines::print::print(&tape[..size], &mut out);
    io::writer(&rt).write_all(&out[..end])
}
