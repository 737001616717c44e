//! A trial: the bound as it would be with one option held.
ghost use Rattle.std.specs.Prelude.{◌≡◌, ◌*◌, ◌<◌, ◌≤◌, false, length, is_ok, IfOk};
ghost use Rattle.table.specs.Whole.{roles};
ghost use Rattle.passes.specs.Bounding.{Bounded};
ghost use Rattle.passes.specs.Passes.{bound as bound_of};
ghost use Rattle.passes.specs.Problem.{problem_of};
ghost use Rattle.search.specs.Calls.{places, BehindKept, asked, tried, trial_answer};

use crate::fault::Fault;
use crate::guard::Trial;
use crate::requirements::{
    require_free, require_no_stray, require_option, require_sheet, require_work,
};
use kinds::figure::Figure;
use passes::holds::Holds;
use passes::places::pair_places;
use passes::query::Query;
use passes::sheet::Sheet;
use table::table::Table;

/// The bound with a variable held on (or off); the holds are afterwards as before.
fn bound_if_held<K: Figure>(
    table: &Table,
    holds: &mut Holds,
    sheet: &[K],
    work: &mut [K],
    variable: u16,
    on: bool,
) -> K
    requires known { (0 < variable) × (variable ≤ 64) }
    requires room { places table.now ≤ length work.old }
    requires sheet { 2 * length (roles table.now) ≤ length sheet.now }
    ensures value { result ≡ bound_of K.ring (tried (problem_of table.now sheet.now holds.old.entries) variable on) }
    ensures same { holds.new.entries ≡ holds.old.entries }
    ensures behind { BehindKept table.now work.old work.new }
{
    let place = variable as usize - 1;
    let before = holds.entries[place];
    holds.hold(variable, on);
    let trial = Trial {
        holds,
        place,
        before,
    };
    Query {
        table,
        sheet,
        holds: trial.holds,
    }
    .pair_bound(work)
}

/// The bound as it would be with a free option held on (or off). The holds are as before on every
/// way out.
pub fn trial<K: Figure>(
    table: &Table,
    holds: &mut Holds,
    sheet: &Sheet<K>,
    work: &mut [K],
    variable: u16,
    on: bool,
) -> Result<K, Fault>
    ensures answer { let p = asked table.now sheet.now holds.old in
        result ≡ trial_answer K.ring p (length work.old) variable on }
    ensures bounded { IfOk result (Bounded K.ring (tried (asked table.now sheet.now holds.old) variable on)) }
    ensures holds { holds.new.entries ≡ holds.old.entries }
    ensures behind { BehindKept table.now work.old work.new }
    ensures refused { is_ok result ≡ false → work.new ≡ work.old }
{
    require_sheet(table, sheet.figures.len())?;
    require_no_stray(table, holds)?;
    require_option(table, variable)?;
    require_free(holds, variable)?;
    require_work(work.len(), pair_places(table))?;
    Ok(bound_if_held(table, holds, sheet.figures, work, variable, on))
}
