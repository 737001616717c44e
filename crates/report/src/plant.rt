//! What a program prints for a plant's file.
ghost use Rattle.std.specs.Prelude.{◌≡◌, replicate, IfOk};
ghost use Rattle.text.specs.Format.{listed};
ghost use Rattle.text.specs.Printed.{Lines, PlainNames};
ghost use Rattle.table.specs.Whole.{circuit};
ghost use Rattle.report.specs.Plant.{table_report as table_report_of, plant_report};
ghost use Rattle.report.specs.Stops.{Prints, Spells};

use crate::answer::report_text;
use crate::stop::Stop;
use kinds::figure::Figure;
use kinds::written::Written;
use parts::stores::{Parts, Room};
use passes::holds::Holds;
use passes::sheet::{LARGEST_SHEET, Sheet};
use search::asking::{bound, select};
use search::order::BranchingOrder;
use search::weights::read_weights;
use std::alloc::{AllocError, Global};
use table::table::Table;
use text::fault::RefusalLine;

/// How many figures the work table has.
const WORK_ROOM: usize = 4096;

/// What is printed for a file: the bound and the best selection where nothing is held, or the
/// first refusal.
pub fn plant_report<K: Written, O: BranchingOrder<K>>(
    heap: Global,
    order: &O,
    file: &[u8],
) -> Result<String, AllocError>
    ensures { Spells (plant_report K.ring K.notation (O.picks order.now) file.now) result }
{
    printed(heap, file_report::<K, O>(heap, order, file))
}

/// The text that is to be printed, or the line of the refusal.
pub(crate) fn printed(heap: Global, answer: Result<String, Stop>) -> Result<String, AllocError>
    ensures { (ls : Lines) → Prints (Unit {0}) ls answer → Spells ls result }
{
    answer.or_else(|stop| match stop {
        Stop::Refused(fault) => RefusalLine(fault).to_string(heap),
        Stop::NoMemory(error) => Err(error),
    })
}

/// What is printed for a file whose parts are accepted.
fn file_report<K: Written, O: BranchingOrder<K>>(
    heap: Global,
    order: &O,
    file: &[u8],
) -> Result<String, Stop>
    ensures { Prints (Unit {0}) (plant_report K.ring K.notation (O.picks order.now) file.now) result }
{
    let room = Room::largest();
    let parts = Parts::read(heap, &room, file)??;
    let table = parts.table()?;
    table_report(heap, order, &table, parts.weights(file))
}

/// What is printed for a checked table, with its weight text.
fn table_report<K: Written, O: BranchingOrder<K>>(
    heap: Global,
    order: &O,
    table: &Table,
    weights: &[u8],
) -> Result<String, Stop>
    ensures { let vs = table.now.variables in
        let lines = table_report_of K.ring K.notation (O.picks order.now) vs (circuit table.now) weights.now in
        Prints (PlainNames (listed vs)) lines result }
{
    let mut figures = zeros::<K>(heap, LARGEST_SHEET)?;
    let mut work = zeros::<K>(heap, WORK_ROOM)?;
    let mut sheet = Sheet {
        figures: &mut figures,
    };
    read_weights(table, &mut sheet, weights)?;
    let holds = Holds::new();
    let most = bound(table, &holds, &sheet, &mut work)?;
    let found = select(table, &holds, &sheet, &mut work, order)?;
    Ok(report_text(heap, &table.variables, most, &found)?)
}

/// A store of so many figures.
pub(crate) fn zeros<K: Figure>(heap: Global, count: usize) -> Result<Vec<K>, AllocError>
    ensures { IfOk result (λ v. v.items ≡ replicate count K.ring.zero) }
{
    // Not `vec!`: it clones its item, and no law says that the clone of a figure is the figure.
    let mut store = Vec::new(heap);
    store.resize_with(count, || K::zero())?;
    Ok(store)
}
