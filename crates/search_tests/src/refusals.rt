//! Refused calls on plant K.
use crate::steps::{Held, MARK, Study, holds_of};
use kinds::written::Written;
use parts::stores::Parts;
use plants::files::PLANT;
use plants::reading::{read, table_of};
use search::number_order::NumberOrder;
use std::alloc::Global;
use std::fmt::Display;
use std::process::Abort;
use std::test::Fail;

// The lengths of the sheet and of the work table, what is held, and calls with their answers: each
// is made on a new study.
type Case = (
    usize,
    usize,
    &'static [Held],
    &'static [(&'static str, &'static str)],
);

const OPTION_ON: &[Held] = &[(1, true)];

const CHANCE_ON: &[Held] = &[(2, true)];

const BOTH: &[Held] = &[(1, true), (2, false)];

const CASES: &[Case] = &[
    // the least stores
    (
        4,
        21,
        &[],
        &[
            ("hold 1 on", "done"),
            ("weigh 2 3 7", "done"),
            ("trial 1 on", "901"),
            ("bound", "901"),
            ("select", "901 by +1, 3 opened"),
        ],
    ),
    (4, 7, OPTION_ON, &[("release 1", "done"), ("figure", "901")]),
    (0, 0, &[], &[("hold 1 off", "done")]),
    (0, 0, OPTION_ON, &[("release 1", "done")]),
    (4, 0, OPTION_ON, &[("weigh 2 3 7", "done")]),
    // a short sheet, whatever else fits
    (
        3,
        0,
        BOTH,
        &[
            ("hold 0 on", "study 15 at 0"),
            ("release 0", "study 15 at 0"),
            ("weigh 1 3 7", "study 14 at 0"),
            ("trial 1 on", "study 14 at 0"),
            ("figure", "study 14 at 0"),
            ("bound", "study 14 at 0"),
            ("select", "study 14 at 0"),
        ],
    ),
    (
        3,
        21,
        &[],
        &[
            ("weigh 2 3 7", "study 14 at 0"),
            ("trial 1 on", "study 14 at 0"),
            ("figure", "study 14 at 0"),
            ("bound", "study 14 at 0"),
            ("select", "study 14 at 0"),
        ],
    ),
    // a stray hold, whatever follows
    (
        4,
        21,
        CHANCE_ON,
        &[
            ("hold 1 on", "study 15 at 0"),
            ("release 2", "study 15 at 0"),
            ("weigh 2 3 7", "study 15 at 0"),
            ("trial 1 off", "study 15 at 0"),
            ("figure", "study 15 at 0"),
            ("bound", "study 15 at 0"),
            ("select", "study 15 at 0"),
        ],
    ),
    (
        4,
        0,
        &[(1, false), (64, false)],
        &[
            ("hold 1 on", "study 15 at 0"),
            ("hold 2 on", "study 15 at 0"),
            ("release 1", "study 15 at 0"),
            ("release 2", "study 15 at 0"),
            ("weigh 1 3 7", "study 15 at 0"),
            ("trial 1 off", "study 15 at 0"),
            ("trial 2 off", "study 15 at 0"),
            ("figure", "study 15 at 0"),
            ("bound", "study 15 at 0"),
            ("select", "study 15 at 0"),
        ],
    ),
    (
        4,
        21,
        &[(3, true)],
        &[("release 1", "study 15 at 0"), ("figure", "study 15 at 0")],
    ),
    // wrong numbers
    (
        4,
        20,
        &[],
        &[
            ("hold 0 on", "study 16 at 0"),
            ("hold 2 off", "study 16 at 2"),
            ("hold 65 off", "study 16 at 65"),
            ("release 3", "study 16 at 3"),
            ("release 65535", "study 16 at 65535"),
            ("trial 2 on", "study 16 at 2"),
            ("trial 64 off", "study 16 at 64"),
            ("weigh 0 3 7", "study 17 at 0"),
            ("weigh 1 3 7", "study 17 at 1"),
            ("weigh 3 3 7", "study 17 at 3"),
            ("weigh 65535 3 7", "study 17 at 65535"),
        ],
    ),
    // held, not held, still free, and a short work table
    (
        4,
        20,
        OPTION_ON,
        &[
            ("hold 1 on", "study 18 at 1"),
            ("hold 1 off", "study 18 at 1"),
            ("trial 1 on", "study 18 at 1"),
            ("trial 1 off", "study 18 at 1"),
            ("bound", "study 21 at 0"),
            ("select", "study 21 at 0"),
        ],
    ),
    (
        4,
        6,
        &[],
        &[
            ("release 1", "study 19 at 1"),
            ("figure", "study 20 at 0"),
            ("trial 1 on", "study 21 at 0"),
            ("bound", "study 21 at 0"),
            ("select", "study 21 at 0"),
        ],
    ),
    (4, 6, OPTION_ON, &[("figure", "study 21 at 0")]),
];

fn check_case(
    rt: &impl Abort,
    plant: &Parts,
    entry: Case,
    heap: Global,
    case: &impl Display,
) -> Result<(), Fail> {
    let (figures, places, held, steps) = entry;
    for step in steps {
        let mut study = Study {
            table: table_of(plant, case)?,
            holds: holds_of(held),
            figures: vec![in heap; MARK; figures]?,
            work: vec![in heap; MARK; places]?,
        };
        study.run(rt, &NumberOrder, &[*step], heap, case)?;
    }
    Ok(())
}

#[test]
fn refusals(rt: HostRuntime) -> Result<(), Fail> {
    let heap = rt.alloc();
    let plant = read(PLANT, heap)?;
    for (i, entry) in CASES.iter().enumerate() {
        let case = format!(in heap; "case {i}")?;
        check_case(&rt, &plant, *entry, heap, &case)?;
    }
    Ok(())
}
