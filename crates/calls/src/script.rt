//! A script that was read, or the line of it that has not its form.
ghost use Rattle.std.specs.Prelude.{[], ◌∷◌, Some};
ghost use Rattle.text.specs.Printed.{text_of};
ghost use Rattle.calls.specs.Calls.{malformed};

use search::call::Call;
use std::fmt;

/// The calls, and the file behind the last of their lines.
#[derive(Drop)]
pub struct Script<'a, K> {
    pub calls: Vec<Call<K>>,
    pub file: &'a [u8],
}

/// The number of the first line that has not its form, counted from 1.
#[derive(Clone, Copy, Debug, PartialEq, Eq)]
pub struct Malformed {
    pub line: usize,
}

impl fmt::Display for Malformed {
    ghost output = { λ m. Some (text_of (malformed m.line ∷ [])) };

    fn fmt<W: fmt::Write>(&self, f: &mut fmt::Formatter<W>) -> fmt::Result {
        write!(f, "E\t{}\n", self.line)
    }
}
