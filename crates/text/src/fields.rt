//! The bytes and the fields of a line.
ghost use Rattle.std.specs.Prelude.{◌≡◌, ◌≤◌, false, [], length, slice_index_or, MatchOption};
ghost use Rattle.std.specs.List.{list_all};
ghost use Rattle.text.specs.Lines.{printable, first_printable, index_of, lines, fields, BeginsWithLine, BeginsWithPrintable};

/// The byte between two fields.
pub const TAB: u8 = 9;

/// The byte that ends a line.
pub const NEWLINE: u8 = 10;

/// The place of the first `byte`, or the length of the text where it has none.
pub fn find(text: &[u8], byte: u8) -> usize
    ensures value { result ≡ index_of byte text.now }
    ensures within { result ≤ length text.now }
{
    text.iter().position(|b| *b == byte).unwrap_or(text.len())
}

/// The first line of a text, without the byte that ends it, if the text has one.
pub fn first_line(text: &[u8]) -> Option<&[u8]>
    ensures { MatchOption result (lines text.now ≡ []) (λ l. BeginsWithLine text.now l.now) }
{
    let end = find(text, NEWLINE);
    if end < text.len() {
        Some(&text[..end])
    } else {
        None
    }
}

/// Whether a byte may stand in a line: a tab, or 32 to 126.
pub(crate) fn is_printable(byte: u8) -> bool
    ensures { result ≡ printable byte }
{
    matches!(byte, TAB | 32..=126)
}

/// The first line of a text, without the byte that ends it, if the text has one and each byte of it
/// may stand in a line.
pub(crate) fn printable_line(text: &[u8]) -> Option<&[u8]>
    ensures { MatchOption result (first_printable (lines text.now) ≡ false) (λ l. BeginsWithPrintable text.now l.now) }
{
    // One search for both: the byte that ends a line may not stand in one.
    let end = text.iter().position(|b| !is_printable(*b))?;
    if text[end] == NEWLINE {
        Some(&text[..end])
    } else {
        None
    }
}

/// Whether each byte of a line may stand there.
pub fn all_printable(line: &[u8]) -> bool
    ensures { result ≡ list_all printable line.now }
{
    line.iter().all(|b| is_printable(*b))
}

/// How many fields a line has.
pub fn field_count(line: &[u8]) -> usize
    ensures { result ≡ length (fields line.now) }
{
    line.iter().filter(|b| **b == TAB).count() + 1
}

/// The field `k` of a line, counted from 0, or nothing where the line has no such field.
pub fn field(line: &[u8], k: usize) -> &[u8]
    ensures { result.now ≡ slice_index_or (fields line.now) k [] }
{
    line.split(|b| *b == TAB).nth(k).unwrap_or(&[])
}
