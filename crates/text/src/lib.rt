//! The table file: bytes, lines, fields, numbers, and the reader that fills the caller's stores.
#![tactic(auto)]

pub mod fault;
pub mod fields;
pub mod kind;
pub mod lines;
pub mod nodes;
pub mod numeral;
pub mod progress;
pub mod reader;
pub mod record;
