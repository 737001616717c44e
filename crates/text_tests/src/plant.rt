//! Plant K, sound and spoiled.
use crate::stores::{NumberAndPlace, Shown, Stores};
use std::alloc::{AllocError, Global};
use std::fmt::Display;
use std::process::Abort;
use std::test::Fail;
use text::record::Form;

/// Its first line.
pub const HEADER: &str = "G\t2\t7\t6";

/// Its lines. The last is the weight text.
const LINES: &[&str] = &[
    HEADER,
    "V\t1\tE\tfree cooling",
    "V\t2\tR\thot day",
    "L\t2",
    "L\t-1",
    "A\t0\t1",
    "L\t-2",
    "L\t1",
    "A\t3\t4",
    "O\t2\t2\t5",
    "W\t2\t3\t7",
];

/// The length of its table part, where the weight text begins.
pub const TABLE_LENGTH: usize = 79;

const OFF_1: Form = Form::Literal {
    variable: 1,
    on: false,
};

const OFF_2: Form = Form::Literal {
    variable: 2,
    on: false,
};

const ON_1: Form = Form::Literal {
    variable: 1,
    on: true,
};

const ON_2: Form = Form::Literal {
    variable: 2,
    on: true,
};

pub const NODES: [Shown; 7] = [
    (ON_2, 0, 0),
    (OFF_1, 0, 0),
    (Form::And, 0, 2),
    (OFF_2, 2, 0),
    (ON_1, 2, 0),
    (Form::And, 2, 2),
    (Form::Fork { variable: 2 }, 4, 2),
];

pub const CHILDREN: [u16; 6] = [0, 1, 3, 4, 2, 5];

/// How many nodes and children are written before a refusal at each place: 0, or a line.
const WRITTEN: [(usize, usize); 12] = [
    (0, 0),
    (0, 0),
    (0, 0),
    (0, 0),
    (0, 0),
    (1, 0),
    (2, 0),
    (3, 2),
    (4, 2),
    (5, 2),
    (6, 4),
    (7, 6),
];

/// The plant's file.
pub(crate) fn plant(heap: Global) -> Result<String, AllocError> {
    spoiled(HEADER, None, heap)
}

/// The plant's file with another header, and with another text in the place of a line.
pub(crate) fn spoiled(
    header: &str,
    change: Option<(usize, &str)>,
    heap: Global,
) -> Result<String, AllocError> {
    let mut file = String::new(heap);
    for (i, old) in LINES.iter().enumerate() {
        let new = match change {
            Some((line, text)) if line == i.saturating_add(1) => text,
            _ if i == 0 => header,
            _ => *old,
        };
        file.push_str(new)?;
        file.push_str("\n")?;
    }
    Ok(file)
}

/// A file that is the plant's up to some line, but perhaps for the header's counts, is refused
/// there, or is accepted whole. The stores hold what the lines before it wrote.
pub(crate) fn check_read(
    rt: &impl Abort,
    file: &[u8],
    due: Option<NumberAndPlace>,
    heap: Global,
    case: &impl Display,
) -> Result<(), Fail> {
    let line = due.map_or(11, |(_, place)| place);
    let (nodes, children) = *WRITTEN.get(line).ok_or("no such line")?;
    Stores::new(9, 8, heap)?.check_read(
        rt,
        file,
        due,
        (&NODES, nodes),
        (&CHILDREN, children),
        case,
    );
    Ok(())
}
