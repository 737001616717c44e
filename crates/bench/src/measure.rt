//! What is measured, done again and again. Asked for no repeat, each answers nothing.
use kinds::figure::Figure;
use parts::stores::{Parts, Room};
use passes::holds::Holds;
use passes::sheet::Sheet;
use search::asking::{bound, select};
use search::fault::Fault;
use search::found::Found;
use search::order::BranchingOrder;
use search::study::hold;
use std::alloc::{AllocError, Global};
use table::fault::Fault as Unsound;
use table::table::Table;

/// Reads a file and checks its circuit, some times over: how many nodes it has, or why it is refused.
pub(crate) fn repeat_check(
    heap: Global,
    file: &[u8],
    repeats: u32,
) -> Result<Result<Option<usize>, Unsound>, AllocError> {
    let room = Room::largest();
    let mut nodes = Ok(None);
    for _ in 0..repeats {
        nodes = match Parts::read(heap, &room, file)? {
            Ok(parts) => parts.table().map(|table| Some(table.nodes.len())),
            Err(fault) => Err(Unsound::Text(fault)),
        };
    }
    Ok(nodes)
}

/// The first options are held, as many as are asked for, on and off by turns.
pub(crate) fn holds_of(table: &Table, count: usize) -> Holds {
    let mut holds = Holds::new();
    let mut held = 0;
    for variable in 1..=64 {
        if held < count && hold(table, &mut holds, variable, held % 2 == 0).is_ok() {
            held += 1;
        }
    }
    holds
}

/// The bound, worked out some times over, or why the call is refused.
pub(crate) fn repeat_bound<K: Figure>(
    table: &Table,
    holds: &Holds,
    sheet: &Sheet<K>,
    work: &mut [K],
    repeats: u32,
) -> Result<Option<K>, Fault> {
    let mut answer = Ok(None);
    for _ in 0..repeats {
        answer = bound(table, holds, sheet, work).map(Some);
    }
    answer
}

/// The best selection, worked out some times over, or why the call is refused.
pub(crate) fn repeat_select<K: Figure, O: BranchingOrder<K>>(
    table: &Table,
    holds: &Holds,
    sheet: &Sheet<K>,
    work: &mut [K],
    order: &O,
    repeats: u32,
) -> Result<Option<Found<K>>, Fault> {
    let mut answer = Ok(None);
    for _ in 0..repeats {
        answer = select(table, holds, sheet, work, order).map(Some);
    }
    answer
}
