//! The letter of a line, and the sections of a file.
ghost use Rattle.std.specs.Prelude.{◌≡◌, [], slice_index_or};
ghost use Rattle.text.specs.Lines.{fields};
ghost use Rattle.text.specs.Format.{by_letter, line_kind_of};

use crate::fields::field;

/// What a line is by its first field.
#[derive(Clone, Copy, Debug, PartialEq, Eq)]
pub enum LineKind {
    Header,
    Variable,
    Literal,
    And,
    Fork,
    True,
    False,
    Other,
}

/// The part of the file that the next line belongs to.
#[derive(Clone, Copy, Debug, PartialEq, Eq)]
pub enum Section {
    Header,
    Variables,
    Nodes,
}

/// What a line is by its letter.
impl From<u8> for LineKind {
    ghost from_gives = { λ letter kind. kind ≡ by_letter letter };

    fn from(letter: u8) -> LineKind {
        match letter {
            b'G' => LineKind::Header,
            b'V' => LineKind::Variable,
            b'L' => LineKind::Literal,
            b'A' => LineKind::And,
            b'O' => LineKind::Fork,
            b'T' => LineKind::True,
            b'F' => LineKind::False,
            _ => LineKind::Other,
        }
    }
}

/// What a line is by its first field.
pub(crate) fn line_kind(line: &[u8]) -> LineKind
    ensures { result ≡ line_kind_of (slice_index_or (fields line.now) 0 []) }
{
    match field(line, 0) {
        [letter] => LineKind::from(*letter),
        _ => LineKind::Other,
    }
}
