//! What a node line says.
ghost use Rattle.std.specs.Prelude.{◌≡◌, ◌+◌, ◌≤◌, [], map, length, drop, Ok};
ghost use Rattle.std.specs.List.{list_all};
ghost use Rattle.text.specs.Lines.{fields};
ghost use Rattle.text.specs.Numerals.{number};
ghost use Rattle.text.specs.Format.{is_number, number_or_zero, literal_of, literal, leaf_says};
ghost use Rattle.text.specs.Steps.{ReadsAs, ReadsNode, written_at};
ghost use Rattle.text.specs.declared.kind.LineKind.TheVariants as kind;

use crate::fault::Reason;
use crate::fields::{TAB, field, field_count};
use crate::kind::LineKind;
use crate::lines::number_field;
use crate::numeral::read_number;
use crate::record::Form;

/// A node line: what the node is, and from which field on the line names its children.
#[derive(Clone, Copy, Debug, PartialEq, Eq)]
pub struct NodeLine {
    pub form: Form,
    pub from: usize,
}

/// Whether each field of a line from the field `from` on is a number.
pub(crate) fn all_numbers(line: &[u8], from: usize) -> bool
    ensures { result ≡ list_all is_number (drop from (fields line.now)) }
{
    line.split(|b| *b == TAB)
        .skip(from)
        .all(|field| read_number(field).is_some())
}

/// Writes the numbers in the fields of a line from the field `from` on into the store, from place
/// `first` on.
pub(crate) fn write_numbers(line: &[u8], from: usize, store: &mut [u16], first: usize)
    requires { first + length (drop from (fields line.now)) ≤ length store.old }
    ensures { store.new ≡ written_at first (map number_or_zero (drop from (fields line.now))) store.old }
{
    // By place: the proof loses what a zip with `iter_mut` writes.
    for (i, field) in line.split(|b| *b == TAB).skip(from).enumerate() {
        store[first + i] = read_number(field).unwrap_or(0);
    }
}

/// The literal of the variable whose number the digits write.
fn literal(digits: &[u8], on: bool) -> Option<Form>
    ensures { result ≡ literal_of on (number digits.now) }
{
    read_number(digits).map(|variable| Form::Literal { variable, on })
}

/// The literal that a field writes: a variable's number, with a minus sign in front for off.
#[tactic(auto, unfolding(crate::specs::Numerals::numeral))]
pub(crate) fn read_literal(field: &[u8]) -> Option<Form>
    ensures { result ≡ literal field.now }
{
    match field {
        [b'-', digits @ ..] => literal(digits, false),
        _ => literal(field, true),
    }
}

#[tactic(auto, using(crate::proofs::Cuts::some_field), unfolding(crate::specs::Format::node_says))]
fn literal_line(line: &[u8]) -> Result<NodeLine, Reason>
    ensures { ReadsNode kind.Literal (fields line.now) result }
{
    if field_count(line) != 2 {
        return Err(Reason::Line);
    }
    let form = read_literal(field(line, 1)).ok_or(Reason::Number)?;
    Ok(NodeLine { form, from: 2 })
}

#[tactic(auto, using(crate::proofs::Cuts::some_field), unfolding(crate::specs::Format::node_says))]
fn and_line(line: &[u8]) -> Result<NodeLine, Reason>
    ensures { ReadsNode kind.And (fields line.now) result }
{
    if field_count(line) < 2 {
        return Err(Reason::Line);
    }
    if !all_numbers(line, 1) {
        return Err(Reason::Number);
    }
    Ok(NodeLine {
        form: Form::And,
        from: 1,
    })
}

#[tactic(auto, using(crate::proofs::Cuts::some_field), unfolding(crate::specs::Format::node_says))]
fn fork_line(line: &[u8]) -> Result<NodeLine, Reason>
    ensures { ReadsNode kind.Fork (fields line.now) result }
{
    if field_count(line) != 4 {
        return Err(Reason::Line);
    }
    let variable = number_field(line, 1)?;
    if !all_numbers(line, 2) {
        return Err(Reason::Number);
    }
    Ok(NodeLine {
        form: Form::Fork { variable },
        from: 2,
    })
}

#[tactic(auto, using(crate::proofs::Cuts::some_field))]
fn leaf_line(line: &[u8], form: Form) -> Result<NodeLine, Reason>
    ensures { ReadsAs (leaf_says form (drop 1 (fields line.now))) (fields line.now) result }
{
    if field_count(line) != 1 {
        return Err(Reason::Line);
    }
    Ok(NodeLine { form, from: 1 })
}

/// A node line of a kind.
#[tactic(auto, unfolding(crate::specs::Format::node_says))]
pub(crate) fn node_line(line_kind: LineKind, line: &[u8]) -> Result<NodeLine, Reason>
    ensures { ReadsNode line_kind (fields line.now) result }
{
    match line_kind {
        LineKind::Literal => literal_line(line),
        LineKind::And => and_line(line),
        LineKind::Fork => fork_line(line),
        LineKind::True => leaf_line(line, Form::True),
        LineKind::False => leaf_line(line, Form::False),
        LineKind::Header | LineKind::Variable | LineKind::Other => Err(Reason::Line),
    }
}
