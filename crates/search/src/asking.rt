//! The calls of a study that answer a figure. A refused call changes nothing.
ghost use Rattle.std.specs.Prelude.{◌≡◌, false, length, is_ok, IfOk};
ghost use Rattle.passes.specs.Bounding.{Bounded};
ghost use Rattle.search.specs.Best.{FoundBest};
ghost use Rattle.search.specs.Calls.{BehindKept, asked, figure_answer, figure_leaves, bound_answer, bound_leaves, select_answer};

use crate::fault::Fault;
use crate::found::Found;
use crate::order::BranchingOrder;
use crate::plan::Plan;
use crate::requirements::{require_all_held, require_no_stray, require_sheet, require_work};
use kinds::figure::Figure;
use passes::holds::Holds;
use passes::places::pair_places;
use passes::query::Query;
use passes::sheet::Sheet;
use table::table::Table;

/// The figure of the selection held. It leaves the counting values in the work table.
pub fn figure<K: Figure>(
    table: &Table,
    holds: &Holds,
    sheet: &Sheet<K>,
    work: &mut [K],
) -> Result<K, Fault>
    ensures answer { result ≡ figure_answer K.ring (asked table.now sheet.now holds.now) (length work.old) }
    ensures behind { BehindKept table.now work.old work.new }
    ensures work { work.new ≡ figure_leaves K.ring (asked table.now sheet.now holds.now) work.old }
{
    require_sheet(table, sheet.figures.len())?;
    require_no_stray(table, holds)?;
    require_all_held(table, holds)?;
    require_work(work.len(), table.nodes.len())?;
    let query = Query {
        table,
        sheet: sheet.figures,
        holds,
    };
    Ok(query.count_figure(work))
}

/// The bound under the holds. It leaves the pair pass in the work table.
pub fn bound<K: Figure>(
    table: &Table,
    holds: &Holds,
    sheet: &Sheet<K>,
    work: &mut [K],
) -> Result<K, Fault>
    ensures answer { result ≡ bound_answer K.ring (asked table.now sheet.now holds.now) (length work.old) }
    ensures behind { BehindKept table.now work.old work.new }
    ensures bounded { IfOk result (Bounded K.ring (asked table.now sheet.now holds.now)) }
    ensures work { work.new ≡ bound_leaves K.ring (asked table.now sheet.now holds.now) work.old }
{
    require_sheet(table, sheet.figures.len())?;
    require_no_stray(table, holds)?;
    require_work(work.len(), pair_places(table))?;
    let query = Query {
        table,
        sheet: sheet.figures,
        holds,
    };
    Ok(query.pair_bound(work))
}

/// The best selection that keeps the holds, or none, and the number of openings.
pub fn select<K: Figure, O: BranchingOrder<K>>(
    table: &Table,
    holds: &Holds,
    sheet: &Sheet<K>,
    work: &mut [K],
    order: &O,
) -> Result<Found<K>, Fault>
    ensures answer { let p = asked table.now sheet.now holds.now in
        result ≡ select_answer K.ring p (length work.old) (O.picks order.now) }
    ensures best { IfOk result (FoundBest K.ring (asked table.now sheet.now holds.now) (O.picks order.now)) }
    ensures behind { BehindKept table.now work.old work.new }
    ensures refused { is_ok result ≡ false → work.new ≡ work.old }
{
    require_sheet(table, sheet.figures.len())?;
    require_no_stray(table, holds)?;
    require_work(work.len(), pair_places(table))?;
    let plan = Plan {
        table,
        sheet: sheet.figures,
        order,
    };
    Ok(plan.explore(*holds, work))
}
