//! Circuits, sound and spoiled.
use crate::checking::check_file;
use plants::files::{PLANT, file};
use std::test::Fail;

// 64 chances, and 63 behind an option.
const CHANCES: &str = "RRRRRRRRRRRRRRRRRRRRRRRRRRRRRRRRRRRRRRRRRRRRRRRRRRRRRRRRRRRRRRRR";

const OPTION_FIRST: &str = "ERRRRRRRRRRRRRRRRRRRRRRRRRRRRRRRRRRRRRRRRRRRRRRRRRRRRRRRRRRRRRRR";

// Roles, nodes, and the set of variables that each node mentions.
const SOUND: &[(&str, &str, &[u64])] = &[
    // plant K
    (
        "ER",
        "L 2/L -1/A 0 1/L -2/L 1/A 3 4/O 2 2 5",
        &[2, 1, 3, 2, 1, 3, 3],
    ),
    // the least circuits
    ("E", "T", &[0]),
    ("E", "F", &[0]),
    ("E", "L 1", &[1]),
    ("E", "L -1", &[1]),
    ("R", "L -1", &[1]),
    // 10: no variable in two children
    ("RR", "L 1/L 2/A 0 1", &[1, 2, 3]),
    // 10: deeper down
    (
        "RRR",
        "L 1/L 2/L 3/A 0 1/A 3/A 2/A 4 5",
        &[1, 2, 4, 3, 3, 4, 7],
    ),
    ("EE", "L 1/L -1/L 2/O 1 0 1/A 3 2", &[1, 1, 2, 1, 3]),
    // 10: the same child twice
    ("R", "L 1/T/A 1 0 1", &[1, 0, 1]),
    ("E", "F/A 0 0", &[0, 0]),
    ("E", "T/A 0 0/A 1 0 1", &[0, 0, 0]),
    // 11: where the literal may stand
    ("R", "L 1/L -1/O 1 0 1", &[1, 1, 1]),
    ("E", "L 1/L -1/O 1 0 1", &[1, 1, 1]),
    ("R", "L 1/L -1/A 0/A 1/O 1 2 3", &[1, 1, 1, 1, 1]),
    ("R", "L 1/L -1/A 0/O 1 2 1", &[1, 1, 1, 1]),
    ("R", "T/L 1/L -1/A 0 0 1/A 2 0/O 1 3 4", &[0, 1, 1, 1, 1, 1]),
    (
        "RR",
        "L 1/L -1/L 2/L -2/A 0 2/A 1 3/O 1 4 5",
        &[1, 1, 2, 2, 3, 3, 3],
    ),
    (
        "RR",
        "L 1/L -1/L 2/L -2/A 0 2/A 1 3/O 2 4 5",
        &[1, 1, 2, 2, 3, 3, 3],
    ),
    (
        "RR",
        "L 1/L -1/L 2/L -2/A 0 3/A 1 2/O 2 5 4",
        &[1, 1, 2, 2, 3, 3, 3],
    ),
    // 12: what the branches mention
    ("RE", "L 1/L -1/L 2/A 1 2/O 1 0 3", &[1, 1, 2, 3, 3]),
    ("RE", "L 1/L -1/L 2/A 0 2/O 1 3 1", &[1, 1, 2, 3, 3]),
    (
        "REE",
        "L 1/L -1/L 2/L 3/A 0 2/A 1 3/O 1 4 5",
        &[1, 1, 2, 4, 3, 5, 7],
    ),
    ("EE", "L 1/L -1/L 2/A 1 2/O 1 0 3", &[1, 1, 2, 3, 3]),
    (
        "ERR",
        "L 1/L -1/L 2/L 3/A 0 2 3/A 1 2 3/O 1 4 5",
        &[1, 1, 2, 4, 7, 7, 7],
    ),
    // options that no node mentions
    ("ER", "L 2", &[2]),
    ("RE", "L -1", &[1]),
    ("ERE", "L 2/L -2/O 2 0 1", &[2, 2, 2]),
    // a node that the root does not reach
    (
        "ER",
        "L 2/L -1/A 0 1/L -2/L 1/A 3 4/O 2 2 5/L 2",
        &[2, 1, 3, 2, 1, 3, 3, 2],
    ),
];

#[test]
fn sound(rt: HostRuntime) -> Result<(), Fail> {
    check_file(
        &rt,
        PLANT,
        Ok(&[2, 1, 3, 2, 1, 3, 3]),
        rt.alloc(),
        &"plant K",
    )?;
    for (roles, nodes, sets) in SOUND {
        let text = file(*roles, *nodes, rt.alloc())?;
        check_file(&rt, text.as_str(), Ok(*sets), rt.alloc(), nodes)?;
    }
    Ok(())
}

// A refusal's number and node, roles, and nodes that meet it.
const FLAWED: &[(u8, usize, &str, &str)] = &[
    // plant K with another node, and two small tables
    (10, 5, "ER", "L 2/L -1/A 0 1/L -2/L 1/A 3 0/O 2 2 5"),
    (11, 6, "ER", "L 2/L -1/A 0 1/L -2/L 1/A 3 4/O 2 5 2"),
    (8, 6, "ER", "L 2/L -1/A 0 1/L -2/L 1/A 3 4/O 2 2 6"),
    (13, 0, "ER", "L 1"),
    (12, 4, "ER", "L 1/L -1/L 2/A 1 2/O 1 0 3"),
    // 8: an and's child
    (8, 0, "E", "A 0"),
    (8, 0, "E", "A 1/T"),
    (8, 2, "ER", "L 2/L -1/A 0 2/L -2/L 1/A 3 4/O 2 2 5"),
    (8, 2, "ER", "L 2/L -1/A 2 1/L -2/L 1/A 3 4/O 2 2 5"),
    (8, 2, "ER", "L 2/L -1/A 0 3/L -2/L 1/A 3 4/O 2 2 5"),
    (8, 2, "ER", "L 2/L -1/A 7 1/L -2/L 1/A 3 4/O 2 2 5"),
    (8, 2, "ER", "L 2/L -1/A 0 65535/L -2/L 1/A 3 4/O 2 2 5"),
    (8, 2, "R", "L 1/T/A 0 1 2"),
    (8, 2, "R", "L 1/T/A 0 1 3"),
    (8, 2, "R", "L 1/T/A 65535 0 1"),
    // 8: a fork's branch
    (8, 0, "E", "O 1 0 0"),
    (8, 2, "R", "L 1/L -1/O 1 2 1/A 2"),
    (8, 2, "R", "L 1/L -1/O 1 0 2/A 2"),
    (8, 2, "R", "L 1/L -1/O 1 0 3/L -1"),
    (8, 2, "R", "L 1/L -1/O 1 3 1/L 1"),
    (8, 2, "R", "L 1/L -1/O 1 3 1"),
    (8, 2, "R", "L 1/L -1/O 1 65535 1"),
    (8, 2, "R", "L 1/L -1/O 1 0 65535"),
    // 9: a literal's variable
    (9, 0, "R", "L 0"),
    (9, 0, "R", "L -0"),
    (9, 0, "R", "L 2"),
    (9, 0, "R", "L -2"),
    (9, 1, "R", "L 1/L -65535"),
    (9, 4, "ER", "L 2/L -1/A 0 1/L -2/L 3/A 3 4/O 2 2 5"),
    (9, 4, "ER", "L 2/L -1/A 0 1/L -2/L -3/A 3 4/O 2 2 5"),
    (9, 4, "ER", "L 2/L -1/A 0 1/L -2/L 0/A 3 4/O 2 2 5"),
    (9, 4, "ER", "L 2/L -1/A 0 1/L -2/L -0/A 3 4/O 2 2 5"),
    (9, 4, "ER", "L 2/L -1/A 0 1/L -2/L 65535/A 3 4/O 2 2 5"),
    (9, 0, CHANCES, "L 65"),
    (9, 0, CHANCES, "L -65"),
    (9, 0, CHANCES, "L 128"),
    // 9: a fork's variable
    (9, 2, "R", "L 1/L -1/O 0 0 1"),
    (9, 2, "R", "L 1/L -1/O 2 0 1"),
    (9, 2, "R", "L 1/L -1/O 65535 0 1"),
    (9, 2, "R", "L 1/L -1/O 0 0 1/A 2"),
    (9, 2, "R", "L 1/L -1/O 2 0 1/A 2"),
    (9, 2, CHANCES, "L 1/L -1/O 65 0 1"),
    // 10: the same variable in two children
    (10, 2, "R", "L 1/L -1/A 0 1"),
    (10, 2, "R", "L 1/L 1/A 0 1"),
    (10, 2, "E", "L 1/L -1/A 0 1"),
    (10, 2, "R", "L 1/L -1/A 0 1/L 1"),
    (10, 4, "RRR", "L 1/L 2/L 3/L -1/A 0 1 2 3"),
    (10, 4, "RRR", "L 1/L 2/L 3/L -3/A 0 1 2 3"),
    (10, 4, "RRR", "L 1/L 2/L 3/L -2/A 0 3 1 2/A 4"),
    (10, 3, CHANCES, "L 63/L 64/L -64/A 0 1 2"),
    // 10: deeper down
    (10, 3, "RR", "L 1/L 2/A 0 1/A 2 1"),
    (10, 3, "RR", "L 1/L 2/A 0 1/A 0 2/A 3"),
    (10, 5, "RRR", "L 1/L 2/L 3/A 0 1/A 3 2/A 4 0"),
    (10, 7, "RRR", "L 1/L 2/L 3/L -1/A 0 1/A 4/A 3 2/A 5 6"),
    (10, 7, "ER", "L 2/L -1/A 0 1/L -2/L 1/A 3 4/O 2 2 5/A 6 4"),
    (10, 7, "ER", "L 2/L -1/A 0 1/L -2/L 1/A 3 4/O 2 2 5/A 0 6"),
    (
        10,
        7,
        "ER",
        "L 2/L -1/A 0 1/L -2/L 1/A 3 4/O 2 2 5/A 6 1/A 7",
    ),
    (10, 5, "EE", "L 1/L -1/L 2/A 0 2/O 1 3 1/A 4 2"),
    (10, 5, "EE", "L 1/L -1/L 2/A 1 2/O 1 0 3/A 4 2"),
    // 10: the same child twice
    (10, 1, "R", "L 1/A 0 0"),
    (10, 1, "R", "L 1/A 0 0/A 0"),
    (10, 2, "RR", "L 1/L 2/A 0 1 0"),
    (10, 3, "R", "L 1/L -1/O 1 0 1/A 2 2"),
    // 11: where the literal may stand
    (11, 4, "R", "L 1/L -1/A 0/A 2/O 1 3 1"),
    (11, 4, "R", "L 1/L -1/A 1/A 2/O 1 0 3"),
    (11, 4, "R", "L 1/L -1/A 1/A 2/O 1 0 3/A 4"),
    (11, 4, "E", "L 1/L -1/A 0/A 2/O 1 3 1"),
    (11, 3, "R", "L 1/L -1/O 1 0 1/O 1 2 1"),
    (11, 3, "R", "L 1/L -1/O 1 0 1/O 1 0 2"),
    // 11: another literal, or none
    (11, 2, "R", "L 1/L -1/O 1 1 0"),
    (11, 2, "R", "L 1/L -1/O 1 0 0"),
    (11, 2, "R", "L 1/L -1/O 1 1 1"),
    (11, 2, "E", "L 1/L -1/O 1 1 0"),
    (11, 2, "R", "L 1/L -1/O 1 1 0/A 2"),
    (11, 4, "R", "L 1/L -1/A 0/A 1/O 1 3 2"),
    (11, 6, "RR", "L 1/L -1/L 2/L -2/A 0 2/A 1 3/O 1 5 4"),
    (11, 6, "RR", "L 1/L -1/L 2/L -2/A 0 3/A 1 2/O 2 4 5"),
    (11, 2, "RR", "L 1/L -1/O 2 0 1"),
    (11, 2, "R", "T/F/O 1 0 1"),
    (11, 2, "E", "L 1/T/O 1 0 1"),
    (11, 2, "E", "T/L -1/O 1 0 1"),
    (11, 2, CHANCES, "L 64/L -64/O 64 1 0"),
    (11, 2, CHANCES, "L 64/L -64/O 1 0 1"),
    // 12: what the branches mention
    (12, 4, "ER", "L 1/L -1/L 2/A 0 2/O 1 3 1"),
    (12, 4, "ER", "L 1/L -1/L 2/A 1 2/O 1 0 3/A 4"),
    (12, 4, "ER", "L 1/L -1/L 2/A 0 2/O 1 3 1/A 4"),
    (12, 4, "RR", "L 1/L -1/L 2/A 1 2/O 1 0 3"),
    (12, 6, "ERR", "L 1/L -1/L 2/L 3/A 0 2/A 1 3/O 1 4 5"),
    (12, 4, OPTION_FIRST, "L 1/L -1/L 64/A 1 2/O 1 0 3"),
    (12, 4, CHANCES, "L 64/L -64/L 1/A 0 2/O 64 3 1"),
    // 13: what the root mentions
    (13, 0, "R", "T"),
    (13, 0, "R", "F"),
    (13, 0, "RE", "L 2"),
    (13, 2, "RR", "L 1/L -1/O 1 0 1"),
    (13, 4, "RR", "L 1/L -1/O 1 0 1/L 2/A 2"),
    (13, 1, "R", "L 1/T"),
    (13, 7, "ER", "L 2/L -1/A 0 1/L -2/L 1/A 3 4/O 2 2 5/T"),
    (13, 7, "ER", "L 2/L -1/A 0 1/L -2/L 1/A 3 4/O 2 2 5/A 4"),
    (13, 0, CHANCES, "L 64"),
    // a node that the root does not reach
    (8, 0, "R", "A 0/L 1"),
    (8, 0, "R", "A 1/L 1"),
    (8, 0, "R", "O 1 1 1/L 1"),
    (9, 0, "R", "L 2/L 1"),
    (9, 1, "R", "T/O 0 0 0/L 1"),
    (10, 1, "R", "L 1/A 0 0/L -1"),
    (11, 2, "R", "L 1/L -1/O 1 1 0/L 1"),
    (12, 4, "ER", "L 1/L -1/L 2/A 1 2/O 1 0 3/L 2"),
    // two flaws at one node
    (8, 1, "R", "L 1/O 0 0 1"),
    (8, 1, "R", "L 1/O 2 1 0"),
    (8, 1, "R", "L 1/A 0 0 1"),
    (8, 2, "R", "L 1/L -1/O 1 1 2"),
    (8, 0, "R", "A 0"),
    (9, 1, "R", "T/O 2 0 0"),
    (9, 4, "RR", "L 1/L -1/L 2/A 1 2/O 0 0 3"),
    (9, 0, "RR", "L 3"),
    (10, 1, "RR", "L 1/A 0 0"),
    (11, 2, "R", "L 1/T/O 1 0 1"),
    (11, 2, "R", "L 1/T/O 1 1 0"),
    (11, 2, "RR", "L 1/L -1/O 1 1 0"),
    (12, 4, "ERR", "L 1/L -1/L 2/A 1 2/O 1 0 3"),
    // two nodes with flaws
    (9, 0, "R", "L 2/A 1"),
    (8, 0, "R", "A 0/L 2"),
    (10, 1, "R", "L 1/A 0 0/L 0"),
    (11, 2, "R", "L 1/L -1/O 1 1 0/A 0 0/A 4"),
    (12, 4, "ER", "L 1/L -1/L 2/A 1 2/O 1 0 3/A 5"),
    (12, 4, "ER", "L 1/L -1/L 2/A 1 2/O 1 0 3/L 1"),
];

#[test]
fn flawed(rt: HostRuntime) -> Result<(), Fail> {
    for (number, node, roles, nodes) in FLAWED {
        let text = file(*roles, *nodes, rt.alloc())?;
        check_file(&rt, text.as_str(), Err((*number, *node)), rt.alloc(), nodes)?;
    }
    Ok(())
}
