//! What a checked table says.
use crate::large::large;
use parts::stores::Parts;
use plants::files::PLANT;
use plants::reading::{read, table_of};
use std::process::Abort;
use std::test::Fail;

// A node, a variable, and whether the node mentions it.
type Mention = (usize, u16, bool);

// A variable, whether it is one of the table's, and whether it is an option.
type Known = (u16, bool, bool);

const PLANT_MENTIONS: &[Mention] = &[
    (0, 1, false),
    (0, 2, true),
    (1, 1, true),
    (1, 2, false),
    (2, 1, true),
    (2, 2, true),
    (6, 1, true),
    (6, 2, true),
    (6, 0, false),
    (6, 3, false),
    (6, 65, false),
    (6, 66, false),
    (6, 65535, false),
    (7, 1, false),
    (7, 2, false),
    (7, 0, false),
    (4095, 2, false),
    (4096, 2, false),
    (usize::MAX, 2, false),
];

const PLANT_KNOWN: &[Known] = &[
    (0, false, false),
    (1, true, true),
    (2, true, false),
    (3, false, false),
    (64, false, false),
    (65, false, false),
    (65535, false, false),
];

const LARGE_MENTIONS: &[Mention] = &[
    (0, 1, false),
    (0, 64, false),
    (1, 1, true),
    (1, 64, false),
    (252, 1, true),
    (252, 63, true),
    (252, 64, false),
    (253, 1, false),
    (253, 63, false),
    (253, 64, true),
    (253, 65, false),
    (255, 64, true),
    (4095, 0, false),
    (4095, 1, true),
    (4095, 64, true),
    (4095, 65, false),
    (4096, 1, false),
    (4096, 64, false),
];

const LARGE_KNOWN: &[Known] = &[
    (0, false, false),
    (1, true, true),
    (20, true, true),
    (21, true, false),
    (64, true, false),
    (65, false, false),
    (84, false, false),
    (65535, false, false),
];

// The table of these parts says so.
fn check_asked(
    rt: &impl Abort,
    parts: &Parts,
    mentions: &[Mention],
    known: &[Known],
    case: &str,
) -> Result<(), Fail> {
    let table = table_of(parts, &case)?;
    for (node, variable, due) in mentions {
        assert_eq!(rt;
            table.does_mention(*node, *variable),
            *due,
            "node {node}, variable {variable}: {case}"
        );
    }
    for (variable, is_there, is_option) in known {
        assert_eq!(rt;
            (table.has_variable(*variable), table.has_option(*variable)),
            (*is_there, *is_option),
            "variable {variable}: {case}"
        );
    }
    Ok(())
}

#[test]
fn asked(rt: HostRuntime) -> Result<(), Fail> {
    let plant = read(PLANT, rt.alloc())?;
    check_asked(&rt, &plant, PLANT_MENTIONS, PLANT_KNOWN, "plant K")?;
    let text = large(rt.alloc())?;
    let largest = read(text.as_str(), rt.alloc())?;
    check_asked(&rt, &largest, LARGE_MENTIONS, LARGE_KNOWN, "the largest")
}
