//! The program over the words and the streams of its process.

ghost use Rattle.std.specs.Prelude.{◌≤◌, IfOk};

use crate::start::start;
use std::env;
use std::io::{self, BufWriter};

/// Runs the program by `start` on the words of the process without its own name, over its streams,
/// and gives its status: 0, 1 or 2. An error says why there are no words. What words there are and
/// what the streams hold is the system's, and in no contract.
pub fn run(rt: &HostRuntime) -> io::Result<u8>
    ensures { IfOk result (λ status. status ≤ 2) }
{
    let texts: Vec<String> = env::args(rt)?.skip(1).collect(rt.alloc())?;
    let words: Vec<&str> = texts.iter().map(|text| text.as_str()).collect(rt.alloc())?;
    let mut out = BufWriter::new(rt.alloc(), rt.stdout())?;
    Ok(start(
        rt,
        words.as_slice(),
        &mut rt.stdin(),
        &mut out,
        &mut rt.stderr(),
    ))
}
