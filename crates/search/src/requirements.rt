//! What a call needs, by small tests: each answers its refusal if that fits.
ghost use Rattle.std.specs.Prelude.{◌≡◌, ◌≤◌, length};
ghost use Rattle.table.specs.Whole.{roles};
ghost use Rattle.search.specs.Study.{passed, short_sheet, stray_hold, no_option, no_chance, held_already, not_held, still_free, short_work};

use crate::fault::Fault;
use passes::holds::{Entry, Holds};
use table::table::Table;

/// The sheet needs two figures for each variable.
pub(crate) fn require_sheet(table: &Table, size: usize) -> Result<(), Fault>
    ensures { result ≡ passed (short_sheet (roles table.now) size) }
{
    if size < 2 * table.variables.as_slice().len() {
        return Err(Fault::ShortSheet);
    }
    Ok(())
}

/// Whether a variable is held that is not an option.
fn has_stray(table: &Table, entries: &[Entry]) -> bool
    requires { length entries.now ≤ 64 }
    ensures { result ≡ (stray_hold (roles table.now) entries.now).0 }
{
    entries.iter().enumerate().any(|(i, entry)| !table.has_option(i as u16 + 1)
        && *entry != Entry::Free)
}

/// No variable may be held that is not an option.
pub(crate) fn require_no_stray(table: &Table, holds: &Holds) -> Result<(), Fault>
    ensures { result ≡ passed (stray_hold (roles table.now) holds.now.entries) }
{
    if has_stray(table, &holds.entries) {
        return Err(Fault::StrayHold);
    }
    Ok(())
}

/// The number given must be that of an option.
pub(crate) fn require_option(table: &Table, variable: u16) -> Result<(), Fault>
    ensures { result ≡ passed (no_option (roles table.now) variable) }
{
    if !table.has_option(variable) {
        return Err(Fault::NoOption { variable });
    }
    Ok(())
}

/// The number given must be that of a chance.
pub(crate) fn require_chance(table: &Table, variable: u16) -> Result<(), Fault>
    ensures { result ≡ passed (no_chance (roles table.now) variable) }
{
    if !table.has_variable(variable) || table.has_option(variable) {
        return Err(Fault::NoChance { variable });
    }
    Ok(())
}

/// The option given must be free.
pub(crate) fn require_free(holds: &Holds, variable: u16) -> Result<(), Fault>
    ensures { result ≡ passed (held_already holds.now.entries variable) }
{
    if holds.entry(variable) != Entry::Free {
        return Err(Fault::Held { variable });
    }
    Ok(())
}

/// The option given must be held.
pub(crate) fn require_held(holds: &Holds, variable: u16) -> Result<(), Fault>
    ensures { result ≡ passed (not_held holds.now.entries variable) }
{
    if holds.entry(variable) == Entry::Free {
        return Err(Fault::NotHeld { variable });
    }
    Ok(())
}

/// Whether an option is free.
fn has_free(table: &Table, holds: &Holds) -> bool
    ensures { result ≡ (still_free (roles table.now) holds.now.entries).0 }
{
    let count = table.variables.as_slice().len() as u16;
    (1..count + 1).any(|v| table.has_option(v) && holds.entry(v) == Entry::Free)
}

/// Every option must be held.
pub(crate) fn require_all_held(table: &Table, holds: &Holds) -> Result<(), Fault>
    ensures { result ≡ passed (still_free (roles table.now) holds.now.entries) }
{
    if has_free(table, holds) {
        return Err(Fault::StillFree);
    }
    Ok(())
}

/// The work table needs so many places.
pub(crate) fn require_work(size: usize, wanted: usize) -> Result<(), Fault>
    ensures { result ≡ passed (short_work size wanted) }
{
    if size < wanted {
        return Err(Fault::ShortWork);
    }
    Ok(())
}
