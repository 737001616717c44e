//! The calls on plant K, with answers worked out by hand.
use crate::steps::{MARK, Step, Study};
use kinds::peak::Peak;
use kinds::written::Written;
use passes::holds::Holds;
use plants::files::PLANT;
use plants::reading::{read, table_of};
use search::number_order::NumberOrder;
use search::strongest_lean::StrongestLean;
use std::alloc::Global;
use std::process::Abort;
use std::test::Fail;

const TALLIES: &[Step] = &[
    ("weigh 2 3 7", "done"),
    ("bound", "7"),
    ("trial 1 on", "7"),
    ("trial 1 off", "3"),
    ("select", "7 by +1, 3 opened"),
    ("hold 1 on", "done"),
    ("figure", "7"),
    ("bound", "7"),
    ("select", "7 by +1, 1 opened"),
    ("release 1", "done"),
    ("hold 1 off", "done"),
    ("figure", "3"),
    ("bound", "3"),
    ("select", "3 by -1, 1 opened"),
    ("release 1", "done"),
    ("weigh 2 5 5", "done"),
    ("bound", "5"),
    ("select", "5 by +1, 3 opened"),
    ("weigh 2 0 0", "done"),
    ("bound", "0"),
    ("select", "none, 1 opened"),
    ("weigh 2 0 7", "done"),
    ("hold 1 off", "done"),
    ("figure", "0"),
    ("select", "none, 1 opened"),
    ("release 1", "done"),
    ("select", "7 by +1, 3 opened"),
];

const PEAKS: &[Step] = &[
    ("weigh 2 9000 4000", "done"),
    ("bound", "9000"),
    ("select", "9000 by -1, 3 opened"),
    ("trial 1 on", "4000"),
    ("trial 1 off", "9000"),
    ("hold 1 on", "done"),
    ("figure", "4000"),
    ("select", "4000 by +1, 1 opened"),
    ("release 1", "done"),
    ("weigh 2 0 0", "done"),
    ("select", "0 by +1, 3 opened"),
    ("weigh 2 - -", "done"),
    ("bound", "-"),
    ("select", "none, 1 opened"),
];

// The calls answer this by both orders.
fn check_calls<K: Written + Clone>(
    rt: &impl Abort,
    mark: K,
    steps: &[Step],
    heap: Global,
    case: &str,
) -> Result<(), Fail> {
    let by_number = format!(in heap; "number order: {case}")?;
    let by_lean = format!(in heap; "strongest lean: {case}")?;
    let plant = read(PLANT, heap)?;
    let mut study = Study {
        table: table_of(&plant, &case)?,
        holds: Holds::new(),
        figures: vec![in heap; mark; 4]?,
        work: vec![in heap; mark; 21]?,
    };
    study.run(rt, &NumberOrder, steps, heap, &by_number)?;
    study.holds = Holds::new();
    study.run(rt, &StrongestLean, steps, heap, &by_lean)
}

#[test]
fn calls(rt: HostRuntime) -> Result<(), Fail> {
    check_calls(&rt, MARK, TALLIES, rt.alloc(), "tallies")?;
    check_calls(&rt, Peak::Impossible, PEAKS, rt.alloc(), "peaks")
}
