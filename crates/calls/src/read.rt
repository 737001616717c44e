//! Reads the calls of a script.
ghost use Rattle.std.specs.Prelude.{◌≡◌, IfOk};
ghost use Rattle.calls.specs.Script.{begins_call, calls_say};
ghost use Rattle.calls.specs.Reads.{Reads};

use crate::lines::call_line;
use crate::script::{Malformed, Script};
use kinds::written::Written;
use std::alloc::{AllocError, Global};
use text::fields::first_line;

/// Whether a text begins with a line of a call, closed or not.
fn begins_call(text: &[u8]) -> bool
    ensures { result ≡ begins_call text.now }
{
    matches!(text, [b'C', b'\t', ..])
}

/// The calls of a script, from the text behind its first line.
pub fn read_calls<'a, K: Written>(
    heap: Global,
    text: &'a [u8],
) -> Result<Result<Script<'a, K>, Malformed>, AllocError>
    ensures { IfOk result (λ answer. Reads (calls_say K.notation text.now) answer) }
{
    let mut calls = Vec::new(heap);
    let mut rest = text;
    while begins_call(rest) {
        let malformed = Malformed {
            line: calls.len() + 2,
        };
        let Some(content) = first_line(rest) else {
            return Ok(Err(malformed));
        };
        let Some(call) = call_line(content) else {
            return Ok(Err(malformed));
        };
        calls.push(call)?;
        rest = &rest[content.len() + 1..];
    }
    Ok(Ok(Script { calls, file: rest }))
}
