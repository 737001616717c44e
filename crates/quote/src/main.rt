//! Reads a plant's table file, with its weight text, from standard input, and prints its bound and
//! its best selection in tallies.
#![tactic(auto)]

mod answer;

use parts::stores::MOST_READ;
use std::io;
use std::io::Read;

fn main(rt: HostRuntime) -> io::Result<()> {
    let mut file = Vec::new(rt.alloc());
    rt.stdin().take(MOST_READ).read_to_end(&mut file)?;
    let text = answer::quote(rt.alloc(), file.as_slice())?;
    print!(rt; "{text}")
}
