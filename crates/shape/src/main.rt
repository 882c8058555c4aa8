// Document 01's shape program. It reads one line, `n k s`, and prints the counts of that shape, or its refusal. A line has at
// most 12 bytes: 16 are enough to tell that an input is longer.
#![tactic(auto)]

ghost use Rattle.std.specs.Prelude.{◌≤◌, length};

use std::io;
use std::io::Read;

// Reads until the buffer is full, the input ends or a read fails. How many bytes it put at the start of the buffer. A read says how far it
// came, so the loop has no range that a `for` could go over.
fn read_full<R: Read>(reader: &mut R, buf: &mut [u8]) -> usize
    ensures { result ≤ length buf.new }
{
    let mut done = 0;
    while done < buf.len() {
        match reader.read(&mut buf[done..]) {
            Ok(0) | Err(_) => break,
            Ok(n) => done += n,
        }
    }
    done
}

fn main(rt: HostRuntime) -> io::Result<()> {
    let mut input = [0u8; 16];
    let count = read_full(&mut rt.stdin(), &mut input);
    let answer = report::report(&input[..count]);
    rt.write_all(&answer.text[..answer.length])
}
