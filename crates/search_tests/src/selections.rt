//! Select against all selections, one by one.
use crate::steps::{Step, Study};
use kinds::figure::{Figure, greater};
use kinds::peak::Peak;
use kinds::tally::Tally;
use kinds::written::Written;
use parts::stores::Parts;
use passes::holds::{Entry, Holds};
use passes::sheet::Sheet;
use plants::files::{BLOCK_ROLES, BLOCKS, file};
use plants::reading::{read, table_of};
use search::asking::{bound, figure, select};
use search::found::Found;
use search::number_order::NumberOrder;
use search::order::BranchingOrder;
use search::strongest_lean::StrongestLean;
use std::alloc::{AllocError, Global};
use std::fmt::{Debug, Display};
use std::process::Abort;
use std::test::Fail;
use table::table::Table;

// Sheets: for each variable, by rising number, its on and its off weight. The first four variables
// are the options.
const TALLIES: &str = "99 99 99 99 99 99 99 99 3 7 2 5 11 4 6 13";

// With option 1 on the figure is zero.
const PART_ZERO: &str = "99 99 99 99 99 99 99 99 3 0 2 5 11 4 6 13";

const PEAKS: &str = "99 99 99 99 99 99 99 99 300 700 200 500 110 40 60 130";

const PART_IMPOSSIBLE: &str = "99 99 99 99 99 99 99 99 300 - 200 500 110 40 60 0";

// Holds go by a number below 81: a digit to base 3 for each option, 0 free, 1 on, 2 off. The lowest
// digit is that of option 1.
fn holds_at(number: u64) -> Holds {
    let mut holds = Holds::new();
    let mut rest = number;
    for variable in 1..5u16 {
        match rest % 3 {
            1 => holds.hold(variable, true),
            2 => holds.hold(variable, false),
            _ => {}
        }
        rest = rest / 3;
    }
    holds
}

// Whether a selection keeps what is held.
fn is_kept(held: &Holds, chosen: &Holds) -> bool {
    (1..5u16).all(|v| held.entry(v) == Entry::Free || held.entry(v) == chosen.entry(v))
}

fn lowest_free(holds: &Holds) -> Option<u16> {
    (1..5u16).find(|v| holds.entry(*v) == Entry::Free)
}

fn sheet_of<K: Written>(text: &str, heap: Global) -> Result<Vec<K>, Fail> {
    text.split_whitespace()
        .map(|word| K::read(word.as_bytes()).map_err(|_| Fail::new("no figure")))
        .try_collect(heap)
}

// A selection of the options, and its figure.
type Selected<K> = (Holds, K);

// The highest figure of the selections that keep the holds, or zero.
fn highest<K: Written>(held: &Holds, selections: &[Selected<K>]) -> K {
    selections
        .iter()
        .filter(|(chosen, _)| is_kept(held, chosen))
        .fold(K::zero(), |best, (_, own)| greater(best, *own))
}

// The figure to beat, and the branches opened.
#[derive(Clone, Copy)]
struct Walk<K> {
    best: K,
    openings: u64,
}

// A table with a sheet, and the places to work in.
#[derive(Drop)]
struct Plant<'a, K> {
    table: Table<'a>,
    sheet: Sheet<'a, K>,
    work: &'a mut [K],
}

impl<K: Written + PartialEq + Debug> Plant<'_, K> {
    // Every selection: figure refuses the holds that leave an option free.
    fn selections(&mut self, heap: Global) -> Result<Vec<Selected<K>>, AllocError> {
        (0..81)
            .map(holds_at)
            .filter_map(|holds| {
                let own = figure(&self.table, &holds, &self.sheet, self.work).ok()?;
                Some((holds, own))
            })
            .collect(heap)
    }

    // Opens a branch, on before off, the lowest free option first.
    fn open(&mut self, holds: &Holds, levels: u8, before: Walk<K>) -> Option<Walk<K>> {
        let openings = before.openings.wrapping_add(1);
        let best = before.best;
        let reach = bound(&self.table, holds, &self.sheet, self.work).ok()?;
        if reach.no_higher(best) {
            return Some(Walk { best, openings });
        }
        let Some(variable) = lowest_free(holds) else {
            let own = figure(&self.table, holds, &self.sheet, self.work).ok()?;
            return Some(Walk {
                best: greater(best, own),
                openings,
            });
        };
        if levels == 0 {
            return None;
        }
        let mut branch = *holds;
        branch.hold(variable, true);
        let on = self.open(&branch, levels - 1, Walk { best, openings })?;
        branch.hold(variable, false);
        self.open(&branch, levels - 1, on)
    }

    // What select finds by an order is the best that the holds allow.
    fn found_by<O: BranchingOrder<K>>(
        &mut self,
        rt: &impl Abort,
        order: &O,
        held: &Holds,
        selections: &[Selected<K>],
        case: &impl Display,
    ) -> Result<Found<K>, Fail> {
        let found = select(&self.table, held, &self.sheet, self.work, order).map_err(|_| Fail::new(
            format_args!("select is refused: {case}"),
        ))?;
        check_found(rt, found, held, selections, case)?;
        Ok(found)
    }

    // Select by both orders.
    fn check_holds(
        &mut self,
        rt: &impl Abort,
        held: &Holds,
        selections: &[Selected<K>],
        case: &impl Display,
    ) -> Result<(), Fail> {
        let lean = format_args!("strongest lean: {case}");
        self.found_by(rt, &StrongestLean, held, selections, &lean)?;
        let found = self.found_by(rt, &NumberOrder, held, selections, case)?;
        let start = Walk {
            best: K::zero(),
            openings: 0,
        };
        let end = self
            .open(held, 4, start)
            .ok_or_else(|| Fail::new(format_args!("the walk is refused: {case}")))?;
        assert_eq!(rt; found.openings, end.openings, "openings: {case}");
        Ok(())
    }
}

// What select found is the best that the holds allow.
fn check_found<K: Written + PartialEq + Debug>(
    rt: &impl Abort,
    found: Found<K>,
    held: &Holds,
    selections: &[Selected<K>],
    case: &impl Display,
) -> Result<(), Fail> {
    assert!(rt; found.openings > 0, "{case}");
    let best = highest(held, selections);
    let Some(selection) = found.best else {
        assert!(rt; best.no_higher(K::zero()), "none: {case}");
        return Ok(());
    };
    assert!(rt; !best.no_higher(K::zero()), "some: {case}");
    assert!(rt; is_kept(held, &selection.holds), "kept: {case}");
    let (chosen, own) = selections
        .iter()
        .find(|(chosen, _)| is_kept(chosen, &selection.holds))
        .ok_or_else(|| Fail::new(format_args!("no selection: {case}")))?;
    assert_eq!(rt; selection.figure, best, "best: {case}");
    assert_eq!(rt; selection.figure, *own, "its own: {case}");
    assert_eq!(rt; selection.holds, *chosen, "{case}");
    Ok(())
}

// Select on a sheet, for all 81 ways to hold.
fn check_sheet<K: Written + Clone + PartialEq + Debug>(
    rt: &impl Abort,
    parts: &Parts,
    text: &str,
    heap: Global,
) -> Result<(), Fail> {
    let mut weights = sheet_of::<K>(text, heap)?;
    let mut work = vec![in heap; K::zero(); 297]?;
    let mut plant = Plant {
        table: table_of(parts, &text)?,
        sheet: Sheet {
            figures: weights.as_mut_slice(),
        },
        work: work.as_mut_slice(),
    };
    let selections = plant.selections(heap)?;
    for number in 0..81u64 {
        plant.check_holds(
            rt,
            &holds_at(number),
            selections.as_slice(),
            &format_args!("sheet {text}, holds {number}"),
        )?;
    }
    Ok(())
}

#[test]
fn selections(rt: HostRuntime) -> Result<(), Fail> {
    let heap = rt.alloc();
    let text = file(BLOCK_ROLES, BLOCKS, heap)?;
    let parts = read(text.as_str(), heap)?;
    check_sheet::<Tally>(&rt, &parts, TALLIES, heap)?;
    check_sheet::<Tally>(&rt, &parts, PART_ZERO, heap)?;
    check_sheet::<Peak>(&rt, &parts, PEAKS, heap)?;
    check_sheet::<Peak>(&rt, &parts, PART_IMPOSSIBLE, heap)
}

// By hand: the first block reaches 21 with both options off, 56 with 2 alone on, and 14 with 1 on;
// the second 24 with both off, 90 with 3 alone on, 195 with 4 alone on, and 118 with both on.
const BY_NUMBER: &[Step] = &[
    ("select", "10920 by -1+2-3+4, 19 opened"),
    ("hold 2 off", "done"),
    ("select", "4095 by -1-2-3+4, 13 opened"),
];

const BY_LEAN: &[Step] = &[
    ("select", "10920 by -1+2-3+4, 17 opened"),
    ("hold 2 off", "done"),
    ("select", "4095 by -1-2-3+4, 9 opened"),
];

#[test]
fn orders(rt: HostRuntime) -> Result<(), Fail> {
    let heap = rt.alloc();
    let text = file(BLOCK_ROLES, BLOCKS, heap)?;
    let parts = read(text.as_str(), heap)?;
    let mut study = Study {
        table: table_of(&parts, &"orders")?,
        holds: Holds::new(),
        figures: sheet_of::<Tally>(TALLIES, heap)?,
        work: vec![in heap; Tally { count: 0 }; 297]?,
    };
    study.run(&rt, &NumberOrder, BY_NUMBER, heap, &"number order")?;
    study.holds = Holds::new();
    study.run(&rt, &StrongestLean, BY_LEAN, heap, &"strongest lean")
}
