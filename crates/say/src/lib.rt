// What the programs print alike: text, numbers, and parts of an answer. It prints through the handle that it is given, and
// a print that fails is answered as an error.
#![tactic(auto)]

use std::io;
use std::io::Print;

pub fn text<P: Print>(to: &P, text: &[u8]) -> io::Result<()> {
    to.write_all(text)
}

// A space and the number.
pub fn number<P: Print>(to: &P, n: u64) -> io::Result<()> {
    print!(to; " {n}")
}

// A shortfall is above 0.
pub fn shortfall<P: Print>(to: &P, value: i64) -> io::Result<()> {
    if let Ok(value) = u64::try_from(value) {
        number(to, value)?;
    }
    Ok(())
}

// The nodes that are marked 1.
pub fn set<P: Print>(to: &P, marks: &[u8]) -> io::Result<()> {
    for (v, &mark) in marks.iter().enumerate() {
        if mark == 1 {
            number(to, v as u64)?;
        }
    }
    Ok(())
}

// The number and the place by which an input is turned down.
pub fn refused<P: Print>(to: &P, n: u32, place: usize) -> io::Result<()> {
    print!(to; "refused {n} at {place}")
}
