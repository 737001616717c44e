//! What the arguments ask for.
use std::time::Duration;
use std::{env, io};

/// A task, how many options are held, and how often it is done. What is left out is: every task, each
/// number of HELD, once and without a time.
#[derive(Drop)]
pub(crate) struct Asked {
    pub task: Option<String>,
    pub held: Option<u16>,
    pub repeats: Option<u32>,
}

impl Asked {
    pub(crate) fn read(rt: &HostRuntime) -> io::Result<Asked> {
        let mut words = env::args(rt)?.skip(1);
        Ok(Asked {
            task: words.next(),
            held: words.next().and_then(|word| word.parse().ok()),
            repeats: words.next().and_then(|word| word.parse().ok()),
        })
    }

    pub(crate) fn has_task(&self, name: &str) -> bool {
        match &self.task {
            Some(task) => task.as_str() == name,
            None => true,
        }
    }

    pub(crate) fn has_held(&self, held: u16) -> bool {
        self.held.unwrap_or(held) == held
    }

    /// How often a task is done.
    pub(crate) fn count(&self) -> u32 {
        self.repeats.unwrap_or(1)
    }

    /// Ends a line: with the nanoseconds that one run has taken, if repeats are asked for.
    pub(crate) fn end_line(&self, rt: &HostRuntime, time: Duration) -> io::Result<()> {
        match self.repeats.and_then(|count| time.checked_div(count)) {
            Some(each) => println!(rt; "\t{}", each.as_nanos()),
            None => println!(rt; ""),
        }
    }
}
