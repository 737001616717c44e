//! A figure in a line, where its text may be several fields.
ghost use Rattle.std.specs.Prelude.{◌≡◌, ◌<◌, ◌≤◌, [], length, drop};
ghost use Rattle.text.specs.Lines.{fields};
ghost use Rattle.kinds.specs.Texts.{fields_from, figure_at};

use crate::written::Written;
use text::fault::Reason;
use text::fields::{TAB, field, field_count};

/// The figure whose text begins at the field `k` of a line, counted from 0.
pub fn figure_at<W: Written>(line: &[u8], k: usize) -> Result<W, Reason>
    ensures { result ≡ figure_at W.notation k line.now }
{
    W::read(fields_from(line, k, usize::from(W::FIELDS)))
}

/// `count` fields of a line from the field `k` on, with the tabs between them, or as many as there
/// are.
fn fields_from(line: &[u8], k: usize, count: usize) -> &[u8]
    ensures { result.now ≡ fields_from k count line.now }
{
    // One field is found in one walk.
    if count == 1 {
        return field(line, k);
    }
    let rest = behind_fields(line, k);
    if field_count(rest) <= count {
        return rest;
    }
    let end = rest.len() - behind_fields(rest, count).len();
    &rest[..end.saturating_sub(1)]
}

/// What stands behind the first `count` fields of a text: nothing, where it has no more.
fn behind_fields(text: &[u8], count: usize) -> &[u8]
    ensures some { count < length (fields text.now) → fields result.now ≡ drop count (fields text.now) }
    ensures none { length (fields text.now) ≤ count → result.now ≡ [] }
{
    if count == 0 {
        return text;
    }
    match text.iter().position(|b| *b == TAB) {
        Some(end) => behind_fields(&text[end + 1..], count - 1),
        None => &[],
    }
}
