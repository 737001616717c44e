//! What the calls leave in the work table.
use crate::shown::show_figures;
use crate::steps::{Held, MARK, Step, Study, holds_of};
use kinds::tally::Tally;
use kinds::written::Written;
use parts::stores::Parts;
use plants::files::PLANT;
use plants::reading::{read, table_of};
use search::number_order::NumberOrder;
use std::alloc::Global;
use std::process::Abort;
use std::test::Fail;

// What is held, a call, and the places that it writes: the first ones.
const WRITTEN: &[(&[Held], Step, &str)] = &[
    // a value for each of the seven nodes
    (&[(1, true)], ("figure", "7"), "3 0 0 7 1 7 7 "),
    (&[(1, false)], ("figure", "3"), "3 1 3 7 0 0 3 "),
    // a value, an on and an off value for each of them
    (
        &[],
        ("bound", "7"),
        "3 0 0 1 0 1 3 0 3 7 0 0 1 1 0 7 7 0 7 7 3 ",
    ),
];

// What is held, and a call that may leave anything in the first 21 places.
const BEHIND: &[(&[Held], Step)] = &[
    (&[], ("trial 1 on", "7")),
    (&[], ("trial 1 off", "3")),
    (&[], ("select", "7 by +1, 3 opened")),
    (&[(1, false)], ("select", "3 by -1, 1 opened")),
];

const SHEET: [Tally; 4] = [MARK, MARK, Tally { count: 3 }, Tally { count: 7 }];

// The work table of 25 places after a call.
fn work_after(
    rt: &impl Abort,
    plant: &Parts,
    held: &[Held],
    step: Step,
    heap: Global,
) -> Result<Vec<Tally>, Fail> {
    let mut study = Study {
        table: table_of(plant, &"25 places")?,
        holds: holds_of(held),
        figures: SHEET.to_vec(heap)?,
        work: vec![in heap; MARK; 25]?,
    };
    study.run(rt, &NumberOrder, &[step], heap, &"25 places")?;
    Ok(study.work)
}

#[test]
fn left(rt: HostRuntime) -> Result<(), Fail> {
    let heap = rt.alloc();
    let plant = read(PLANT, heap)?;
    for (held, step, written) in WRITTEN {
        let work = work_after(&rt, &plant, *held, *step, heap)?;
        let shown = show_figures(work.as_slice(), heap)?;
        let places = written.split_whitespace().count();
        let unwritten = "901 ".repeat(heap, 25usize.saturating_sub(places))?;
        let due = format!(in heap; "{written}{unwritten}")?;
        assert_eq!(rt; shown.as_str(), due.as_str(), "{}", step.0);
    }
    for (held, step) in BEHIND {
        let mut work = work_after(&rt, &plant, *held, *step, heap)?;
        work.reverse();
        work.truncate(4);
        let shown = show_figures(work.as_slice(), heap)?;
        assert_eq!(rt; shown.as_str(), "901 901 901 901 ", "{}", step.0);
    }
    Ok(())
}
