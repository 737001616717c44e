//! Reads a script of calls, with a plant's table file and its weight text behind it, from standard
//! input, and prints what each call is answered.
#![tactic(auto)]

mod answer;
mod lines;
mod read;
mod script;
mod setup;

use std::io;
use std::io::Read;

// To the end of the input: a script may have any length.
fn main(rt: HostRuntime) -> io::Result<()> {
    let mut input = Vec::new(rt.alloc());
    rt.stdin().read_to_end(&mut input)?;
    let text = answer::calls(rt.alloc(), input.as_slice())?;
    print!(rt; "{text}")
}
