//! What the three passes answer.
use kinds::figure::Figure;
use parts::stores::{Parts, Room};
use passes::holds::Holds;
use passes::places::pair_places;
use passes::query::Query;
use plants::reading::read_into;
use std::alloc::Global;
use std::test::Fail;

/// The figure of the selection held, the plain bound and the bound.
#[derive(Clone, Copy, PartialEq, Eq, Debug)]
pub struct Answers<K> {
    pub figure: K,
    pub plain: K,
    pub bound: K,
}

/// The holds of a letter for each variable: 1 for on, 0 for off, another for free.
pub(crate) fn holds_of(letters: &str) -> Holds {
    let mut holds = Holds::new();
    for (variable, letter) in (1..).zip(letters.chars()) {
        match letter {
            '1' => holds.hold(variable, true),
            '0' => holds.hold(variable, false),
            _ => {}
        }
    }
    holds
}

// The pair pass comes last, so its work table stays. None where the work table is too short.
fn run<K: Figure>(query: &Query<K>, work: &mut [K]) -> Option<Answers<K>> {
    // All of it is lent: what the passes do not write is looked at afterwards.
    if work.len() < pair_places(query.table) {
        return None;
    }
    let figure = query.count_figure(work);
    let plain = query.plain_bound(work);
    let bound = query.pair_bound(work);
    Some(Answers {
        figure,
        plain,
        bound,
    })
}

/// Stores for small tables.
const SMALL: Room = Room {
    nodes: 64,
    children: 64,
};

/// A file's parts, from small stores.
pub(crate) fn read(file: &str, heap: Global) -> Result<Parts, Fail> {
    read_into(file, &SMALL, heap)
}

/// What the passes answer for the table of these parts.
pub(crate) fn ask<K: Figure>(
    parts: &Parts,
    sheet: &[K],
    holds: &Holds,
    work: &mut [K],
) -> Result<Answers<K>, Fail> {
    let table = parts.table().map_err(|_| Fail::new("refused"))?;
    if sheet.len() < 2 * table.variables.as_slice().len() {
        return Err(Fail::new("the sheet is too short"));
    }
    let query = Query {
        table: &table,
        sheet,
        holds,
    };
    run(&query, work).ok_or_else(|| Fail::new("the work table is too short"))
}
