//! The calls of a study, and their answers.
use crate::found::Found;

/// What a study is asked. A variable goes by its number.
#[derive(Clone, Copy, Debug, PartialEq, Eq)]
pub enum Call<K> {
    Hold { variable: u16, on: bool },
    Release { variable: u16 },
    Weigh { variable: u16, on: K, off: K },
    Trial { variable: u16, on: bool },
    Figure,
    Bound,
    Select,
}

/// What an accepted call is answered. A call that is not accepted is answered its `Fault`.
#[derive(Clone, Copy, Debug, PartialEq, Eq)]
pub enum Reply<K> {
    Done,
    Value(K),
    Chosen(Found<K>),
}
