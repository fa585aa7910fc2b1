// The programs' side of the system: an input read to its end, a text written whole, and a failure told in one line. All goes
// through the handles that are given, and so it rests on the contracts of std's `read` and `write`.
#![tactic(auto)]

ghost use Rattle.console.specs.Input.{Held};

use std::io;
use std::io::{Print, Read};

// Tells a failure in one line, under the name given. Where that fails too, there is nobody left to tell.
fn tell<E: Print>(told: &E, what: &str, error: io::Error) {
    let _ = println!(told; "{what}: {error}");
}

// The input to its end, or until the buffer is full: how many bytes of the buffer it takes. A read that fails is told apart from
// the end of the input: it is told in a line, under the name given, and nothing counts as read.
pub fn read_whole<R: Read, E: Print>(
    from: &mut R,
    told: &E,
    buffer: &mut [u8],
    what: &str,
) -> Option<usize>
    ensures { Held result buffer.new }
{
    let mut done = 0;
    while done < buffer.len() {
        match from.read(&mut buffer[done..]) {
            Ok(0) => break,
            Ok(more) => done += more,
            Err(error) => {
                tell(told, what, error);
                return None;
            }
        }
    }
    Some(done)
}

// All of the text; or what failed is told in a line, under the name given.
pub fn write_whole<P: Print, E: Print>(to: &P, told: &E, text: &[u8], what: &str) {
    if let Err(error) = to.write_all(text) {
        tell(told, what, error);
    }
}
