//! Follows an estimator's working day on a plant, which is read from standard input, and says step
//! by step what was done.
#![tactic(auto)]

mod story;
mod words;

use parts::stores::MOST_READ;
use std::io;
use std::io::Read;

fn main(rt: HostRuntime) -> io::Result<()> {
    let mut file = Vec::new(rt.alloc());
    rt.stdin().take(MOST_READ).read_to_end(&mut file)?;
    let text = story::tell(rt.alloc(), file.as_slice())?;
    print!(rt; "{text}")
}
