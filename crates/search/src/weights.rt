//! The reader of a weight text.
ghost use Rattle.std.specs.Prelude.{◌≡◌, ◌≤◌, length, replicate};
ghost use Rattle.text.specs.Format.{overwritten};
ghost use Rattle.table.specs.Whole.{roles};
ghost use Rattle.search.specs.Weights.{is_weight_line, form_says, weight_line_says, weights_say, WeighsAccepted};

use crate::fault::Fault;
use crate::requirements::{require_chance, require_sheet};
use kinds::figure::Figure;
use kinds::line::figure_at;
use kinds::written::Written;
use passes::sheet::Sheet;
use table::table::Table;
use text::fault::{Fault as TextFault, Reason};
use text::fields::{all_printable, field, field_count, first_line};
use text::lines::number_field;

/// A variable's number, and its on and off weight.
#[derive(Drop)]
struct Weighing<K> {
    variable: u16,
    on: K,
    off: K,
}

/// Whether a line has its bytes, its letter and so many fields.
fn is_weight_line(text: &[u8], count: usize) -> bool
    ensures { result ≡ is_weight_line count text.now }
{
    all_printable(text) && field_count(text) == count && field(text, 0) == b"W".as_slice()
}

/// What a line says by its form.
fn read_weighing<K: Written>(text: &[u8]) -> Result<Weighing<K>, Reason>
    ensures { result ≡ form_says K.notation text.now }
{
    let fields = usize::from(K::FIELDS);
    if !is_weight_line(text, 2 + 2 * fields) {
        return Err(Reason::Line);
    }
    let variable = number_field(text, 1)?;
    let on = figure_at(text, 2)?;
    let off = figure_at(text, 2 + fields)?;
    Ok(Weighing { variable, on, off })
}

/// What the line of this number says of a table: its form is judged before its chance.
fn weight_line<K: Written>(table: &Table, text: &[u8], line: usize) -> Result<Weighing<K>, Fault>
    ensures { result ≡ weight_line_says K.notation (roles table.now) line text.now }
{
    let weighing = read_weighing(text).map_err(|reason| TextFault::Line { reason, line })?;
    require_chance(table, weighing.variable).map_err(|_| Fault::WeightLine { line })?;
    Ok(weighing)
}

/// Writes one to the first `count` places.
fn write_ones<K: Figure>(figures: &mut [K], count: usize)
    requires { count ≤ length figures.old }
    ensures { figures.new ≡ overwritten (replicate count K.ring.one) figures.old }
{
    figures[..count].fill_with(|| K::one());
}

/// Reads a weight text: writes one to every variable's two places and then the weights of each
/// line to its chance's, or answers the first refusal that fits. A text refused at a line leaves
/// the ones and the lines before it; a sheet that is too short is left as it is.
pub fn read_weights<K: Written>(
    table: &Table,
    sheet: &mut Sheet<K>,
    text: &[u8],
) -> Result<(), Fault>
    ensures same { sheet.new.figures.ghost_name ≡ sheet.old.figures.ghost_name }
    ensures answer { result ≡ (weights_say K.ring K.notation (roles table.now) sheet.old.figures.now text.now).answer }
    ensures weighs { WeighsAccepted K.ring K.notation (roles table.now) sheet.old.figures.now text.now }
    ensures sheet { sheet.new.figures.now
        ≡ (weights_say K.ring K.notation (roles table.now) sheet.old.figures.now text.now).sheet }
{
    require_sheet(table, sheet.figures.len())?;
    let count = 2 * table.variables.as_slice().len();
    write_ones(sheet.figures, count);
    // A loop over what is left: a last line with no end is refused, and no lemma of the library says
    // which parts `split_inclusive` gives.
    let mut line = 1;
    let mut rest = text;
    while !rest.is_empty() {
        let reason = Reason::Line;
        let content = first_line(rest).ok_or(TextFault::Line { reason, line })?;
        let weighing = weight_line(table, content, line)?;
        sheet.weigh(weighing.variable, weighing.on, weighing.off);
        rest = &rest[content.len() + 1..];
        line += 1;
    }
    Ok(())
}
