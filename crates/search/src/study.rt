//! The calls of a study on its holds and its sheet. A refused call changes nothing.
ghost use Rattle.std.specs.Prelude.{◌≡◌};
ghost use Rattle.table.specs.Whole.{roles};
ghost use Rattle.search.specs.Calls.{asked, hold_leaves, release_leaves, weigh_leaves};
ghost use Rattle.search.specs.Study.{answered, hold_tests, release_tests, weigh_tests};

use crate::fault::Fault;
use crate::requirements::{
    require_chance, require_free, require_held, require_no_stray, require_option, require_sheet,
};
use kinds::figure::Figure;
use passes::holds::Holds;
use passes::sheet::Sheet;
use table::table::Table;

/// Holds a free option on (or off).
pub fn hold(table: &Table, holds: &mut Holds, variable: u16, on: bool) -> Result<(), Fault>
    ensures answer { result ≡ answered (hold_tests (roles table.now) holds.old.entries variable) tt }
    ensures holds { holds.new.entries ≡ hold_leaves table.now holds.old variable on }
{
    require_no_stray(table, holds)?;
    require_option(table, variable)?;
    require_free(holds, variable)?;
    holds.hold(variable, on);
    Ok(())
}

/// Sets a held option free.
pub fn release(table: &Table, holds: &mut Holds, variable: u16) -> Result<(), Fault>
    ensures answer { result ≡ answered (release_tests (roles table.now) holds.old.entries variable) tt }
    ensures holds { holds.new.entries ≡ release_leaves table.now holds.old variable }
{
    require_no_stray(table, holds)?;
    require_option(table, variable)?;
    require_held(holds, variable)?;
    holds.release(variable);
    Ok(())
}

/// Writes a chance's two weights.
pub fn weigh<K: Figure>(
    table: &Table,
    holds: &Holds,
    sheet: &mut Sheet<K>,
    variable: u16,
    on: K,
    off: K,
) -> Result<(), Fault>
    ensures answer { result ≡ answered (weigh_tests (asked table.now sheet.old holds.now) variable) tt }
    ensures same { sheet.new.figures.ghost_name ≡ sheet.old.figures.ghost_name }
    ensures sheet { sheet.new.figures.now ≡ weigh_leaves (asked table.now sheet.old holds.now) variable on off }
{
    require_sheet(table, sheet.figures.len())?;
    require_no_stray(table, holds)?;
    require_chance(table, variable)?;
    sheet.weigh(variable, on, off);
    Ok(())
}
