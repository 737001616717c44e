//! Kinds of figure that have a text form.
ghost use Rattle.std.specs.Prelude.{◌≡◌, ℕ, List, IfOk, Some, Ok, string_bytes};
ghost use Rattle.kinds.specs.Texts.{Notation, Exact};

use crate::figure::Figure;
use std::alloc::{AllocError, Global};
use std::fmt;
use text::fault::Reason;

/// A kind of figure with a text form: each figure has exactly one text.
pub trait Written: Figure + fmt::Display {
    /// How many fields of a line, parted by tabs, a figure's text has.
    const FIELDS: u8;

    ghost FIELDS: { ℕ };

    ghost notation: { Notation Self };

    ghost exact: { Exact notation };

    /// The figure that `text` writes, or why it is refused.
    fn read(text: &[u8]) -> Result<Self, Reason>
        ensures { result ≡ notation.reading text.now };

    /// The figure's text.
    fn write(self, heap: Global) -> Result<String, AllocError>
        ensures { IfOk result (λ s. string_bytes s ≡ notation.text self) }
    {
        self.to_string(heap)
    }

    // What `{}` writes of a figure is its text.
    ghost shown: { (f : Self) → Self.output f ≡ Some (notation.text f) };

    // The constant is the notation's count of fields.
    ghost counted: { FIELDS ≡ notation.fields };
}

/// Writes a figure and reads it back.
pub fn written_and_read<W: Written>(
    figure: W,
    heap: Global,
) -> Result<Result<W, Reason>, AllocError>
    ensures back { IfOk result (λ r. r ≡ Ok figure) }
    ensures exact { (s : List ℕ) → W.notation.reading s ≡ Ok figure → s ≡ W.notation.text figure }
{
    let text = figure.write(heap)?;
    Ok(W::read(text.as_bytes()))
}
