//! The lines of the bound and of the best selection.
ghost use Rattle.std.specs.Prelude.{◌≡◌, ◌<◌, ◌&&◌, [], ◌∷◌, IfOk, string_bytes};
ghost use Rattle.text.specs.Format.{is_option_role, listed};
ghost use Rattle.text.specs.Printed.{PlainNames};
ghost use Rattle.passes.specs.Holding.{selected};
ghost use Rattle.report.specs.Report.{behind_tabs, names_on, selection_line, report_of};
ghost use Rattle.report.specs.Stops.{SpellsNames};

use kinds::written::Written;
use passes::holds::{Entry, Holds};
use search::found::Found;
use std::alloc::{AllocError, Global};
use text::record::{Role, Variables};

/// The line of the bound, and the line of the best selection.
pub fn report_text<K: Written>(
    heap: Global,
    variables: &Variables,
    bound: K,
    found: &Found<K>,
) -> Result<String, AllocError>
    ensures { SpellsNames variables.now (report_of K.notation (listed variables.now) bound found.now) result }
{
    // By `write`: with `{}` for a figure of any kind the proof did not close.
    let bound = bound.write(heap)?;
    let best = selection_text(heap, variables, found)?;
    format!(in heap; "B\t{bound}\n{best}")
}

/// The line of the best selection: its figure, the openings, and the options that are on.
pub(crate) fn selection_text<K: Written>(
    heap: Global,
    variables: &Variables,
    found: &Found<K>,
) -> Result<String, AllocError>
    ensures { SpellsNames variables.now (selection_line K.notation (listed variables.now) found.now ∷ []) result }
{
    let openings = found.openings;
    match found.best {
        Some(selection) => {
            let figure = selection.figure.write(heap)?;
            let names = names_text(heap, variables, &selection.holds)?;
            format!(in heap; "S\t{figure}\t{openings}{names}\n")
        }
        None => format!(in heap; "S\tnone\t{openings}\n"),
    }
}

/// The names of the options that are on, by rising number, each behind a tab.
fn names_text(heap: Global, variables: &Variables, holds: &Holds) -> Result<String, AllocError>
    ensures { let names = names_on holds.now.entries 1 (listed variables.now) in
        IfOk result (λ s. PlainNames (listed variables.now) → string_bytes s ≡ behind_tabs names) }
{
    let mut text = String::new(heap);
    for (number, variable) in (1..).zip(variables.as_slice()) {
        if is_on(holds, number, variable.role) {
            let name = variable.name.as_str();
            write!(text, "\t{name}")?;
        }
    }
    Ok(text)
}

/// Whether a variable of this number and role is an option that is held on.
fn is_on(holds: &Holds, number: u16, role: Role) -> bool
    requires { 0 < number }
    ensures { result ≡ (is_option_role role && selected holds.now.entries number) }
{
    role == Role::Option && holds.entry(number) == Entry::On
}
