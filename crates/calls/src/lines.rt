//! What the first line of a script and a line of a call say.
ghost use Rattle.std.specs.Prelude.{◌≡◌};
ghost use Rattle.calls.specs.Script.{kind_of, order_of, side_named, setup_says, is_call, sided, weigh_says, call_says};

use crate::setup::{Kind, Order, Setup};
use kinds::line::figure_at;
use kinds::written::Written;
use search::call::Call;
use text::fields::{field, field_count};
use text::numeral::read_number;

/// The kind that a word names.
fn kind(word: &[u8]) -> Option<Kind>
    ensures { result ≡ kind_of word.now }
{
    match word {
        b"tally" => Some(Kind::Tally),
        b"peak" => Some(Kind::Peak),
        _ => None,
    }
}

// By `==`, and no match: of a pattern of six bytes the proof did not close. So in `is_call`.
/// The order that a word names.
fn order(word: &[u8]) -> Option<Order>
    ensures { result ≡ order_of word.now }
{
    if word == b"number".as_slice() {
        Some(Order::Number)
    } else if word == b"lean".as_slice() {
        Some(Order::Lean)
    } else {
        None
    }
}

/// What the first line says, if it has the form.
pub fn setup_line(line: &[u8]) -> Option<Setup>
    ensures { result ≡ setup_says line.now }
{
    if field_count(line) != 5 || field(line, 0) != b"D".as_slice() {
        return None;
    }
    let kind = kind(field(line, 1))?;
    let order = order(field(line, 2))?;
    let sheet = read_number(field(line, 3))?;
    let work = read_number(field(line, 4))?;
    Some(Setup {
        kind,
        order,
        sheet,
        work,
    })
}

/// The side that a word names.
fn side(word: &[u8]) -> Option<bool>
    ensures { result ≡ side_named word.now }
{
    match word {
        b"on" => Some(true),
        b"off" => Some(false),
        _ => None,
    }
}

/// Whether a line has this word behind its first field, and so many fields.
fn is_call(line: &[u8], word: &[u8], count: usize) -> bool
    ensures { result ≡ is_call word.now count line.now }
{
    field(line, 1) == word && field_count(line) == count
}

/// The call that a line makes, if it has the form.
pub fn call_line<K: Written>(line: &[u8]) -> Option<Call<K>>
    ensures { result ≡ call_says K.notation line.now }
{
    if is_call(line, b"hold", 4) {
        sided(line).map(|(variable, on)| Call::Hold { variable, on })
    } else if is_call(line, b"release", 3) {
        read_number(field(line, 2)).map(|variable| Call::Release { variable })
    } else if is_call(line, b"weigh", 3 + 2 * usize::from(K::FIELDS)) {
        weigh(line)
    } else if is_call(line, b"trial", 4) {
        sided(line).map(|(variable, on)| Call::Trial { variable, on })
    } else if is_call(line, b"figure", 2) {
        Some(Call::Figure)
    } else if is_call(line, b"bound", 2) {
        Some(Call::Bound)
    } else if is_call(line, b"select", 2) {
        Some(Call::Select)
    } else {
        None
    }
}

/// The number of an option and a side.
fn sided(line: &[u8]) -> Option<(u16, bool)>
    ensures { result ≡ sided line.now }
{
    let variable = read_number(field(line, 2))?;
    let on = side(field(line, 3))?;
    Some((variable, on))
}

/// The number of a chance and its two weights.
fn weigh<K: Written>(line: &[u8]) -> Option<Call<K>>
    ensures { result ≡ weigh_says K.notation line.now }
{
    let variable = read_number(field(line, 2))?;
    let on = figure_at(line, 3).ok()?;
    let off = figure_at(line, 3 + usize::from(K::FIELDS)).ok()?;
    Some(Call::Weigh { variable, on, off })
}
