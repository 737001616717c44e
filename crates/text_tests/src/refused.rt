//! Refusals, each with its number, its place and what the stores hold after it.
use crate::plant::*;
use crate::stores::Stores;
use std::test::Fail;

// A number, a line, and a text in its place for which the file is refused there with that number.
const LINES: &[(u8, usize, &str)] = &[
    // a byte that may not stand in a line
    (2, 1, "G\t2\t7\t6\r"),
    (2, 1, "\u{1f}G\t2\t7\t6"),
    (2, 2, "V\t1\tE\tfree\u{1f}cooling"),
    (2, 2, "V\t1\tE\tfree\u{0}cooling"),
    (2, 3, "V\t2\tR\thot\u{7f}day"),
    (2, 3, "V\t2\tR\thöt day"),
    (2, 3, "V\t2\tR\thot day\r"),
    (2, 4, "L\t2\r"),
    (2, 10, "O\t2\t2\t5\r"),
    (2, 10, "O\t2\t2\t5\u{7f}"),
    // no header
    (2, 1, ""),
    (2, 1, "\t2\t7\t6"),
    (2, 1, "GG\t2\t7\t6"),
    (2, 1, "g\t2\t7\t6"),
    (2, 1, " G\t2\t7\t6"),
    (2, 1, "G \t2\t7\t6"),
    (2, 1, "V\t1\tE\tfree cooling"),
    (2, 1, "L\t2"),
    // no variable
    (2, 2, ""),
    (2, 2, "\t1\tE\tfree cooling"),
    (2, 2, "VV\t1\tE\tfree cooling"),
    (2, 2, "v\t1\tE\tfree cooling"),
    (2, 2, "G\t2\t7\t6"),
    (2, 2, "L\t2"),
    (2, 2, "T"),
    (2, 3, "G\t2\t7\t6"),
    (2, 3, "L\t2"),
    (2, 3, "W\t2\t3\t7"),
    // no node
    (2, 4, ""),
    (2, 4, "\t2"),
    (2, 4, "LL\t2"),
    (2, 4, "l\t2"),
    (2, 4, "AA\t0"),
    (2, 4, "a\t0"),
    (2, 4, "TT"),
    (2, 4, "t"),
    (2, 4, "f"),
    (2, 4, "X"),
    (2, 4, "G\t2\t7\t6"),
    (2, 4, "V\t3\tR\twind"),
    (2, 4, "W\t2\t3\t7"),
    (2, 10, ""),
    (2, 10, "\t2\t2\t5"),
    (2, 10, "OO\t2\t2\t5"),
    (2, 10, "o\t2\t2\t5"),
    (2, 10, "G\t2\t7\t6"),
    (2, 10, "V\t3\tR\twind"),
    (2, 10, "W\t2\t3\t7"),
    // too few or too many fields
    (2, 1, "G"),
    (2, 1, "G\t2"),
    (2, 1, "G\t2\t7"),
    (2, 1, "G\t2\t7\t6\t"),
    (2, 1, "G\t2\t7\t6\t1"),
    (2, 2, "V"),
    (2, 2, "V\t1"),
    (2, 2, "V\t1\tE"),
    (2, 2, "V\t1\tE\tfree cooling\t"),
    (2, 2, "V\t1\tE\tfree\tcooling"),
    (2, 3, "V\t2\tR"),
    (2, 3, "V\t2\tR\thot day\t"),
    (2, 4, "L"),
    (2, 4, "L\t2\t"),
    (2, 4, "L\t2\t1"),
    (2, 4, "A"),
    (2, 4, "O"),
    (2, 4, "O\t2"),
    (2, 4, "O\t2\t2"),
    (2, 4, "O\t2\t2\t5\t"),
    (2, 4, "O\t2\t2\t5\t6"),
    (2, 4, "T\t"),
    (2, 4, "T\t1"),
    (2, 4, "F\t"),
    (2, 4, "F\t1"),
    (2, 10, "L"),
    (2, 10, "L\t1\t"),
    (2, 10, "A"),
    (2, 10, "O\t2\t2"),
    (2, 10, "O\t2\t2\t5\t"),
    (2, 10, "T\t"),
    (2, 10, "F\t"),
    // a number with a sign, a literal with a sign and no number, a field with no child
    (3, 1, "G\t-2\t7\t6"),
    (3, 1, "G\t2\t-7\t6"),
    (3, 1, "G\t2\t7\t-6"),
    (3, 2, "V\t-1\tE\tfree cooling"),
    (3, 3, "V\t-2\tR\thot day"),
    (3, 4, "L\t-01"),
    (3, 4, "L\t-65536"),
    (3, 4, "L\t- 1"),
    (3, 4, "L\t1-"),
    (3, 4, "A\t"),
    (3, 6, "A\t-0\t1"),
    (3, 6, "A\t0\t-1"),
    (3, 6, "A\t0\t1\t"),
    (3, 6, "A\t0\t\t1"),
    (3, 10, "O\t-2\t2\t5"),
    (3, 10, "O\t2\t-2\t5"),
    (3, 10, "O\t2\t2\t-5"),
    // a count outside its limits
    (4, 1, "G\t0\t7\t6"),
    (4, 1, "G\t65\t7\t6"),
    (4, 1, "G\t65535\t7\t6"),
    (4, 1, "G\t2\t0\t6"),
    (4, 1, "G\t2\t4097\t6"),
    (4, 1, "G\t2\t65535\t6"),
    (4, 1, "G\t2\t7\t12289"),
    (4, 1, "G\t2\t7\t65535"),
    // stores of 9 nodes and 8 children
    (5, 1, "G\t2\t10\t6"),
    (5, 1, "G\t2\t7\t9"),
    (5, 1, "G\t64\t4096\t12288"),
    // a variable against the rules
    (6, 2, "V\t0\tE\tfree cooling"),
    (6, 2, "V\t2\tE\tfree cooling"),
    (6, 2, "V\t65535\tE\tfree cooling"),
    (6, 3, "V\t1\tR\thot day"),
    (6, 3, "V\t3\tR\thot day"),
    (6, 2, "V\t1\tEE\tfree cooling"),
    (6, 2, "V\t1\t\tfree cooling"),
    (6, 2, "V\t1\te\tfree cooling"),
    (6, 2, "V\t1\tO\tfree cooling"),
    (6, 3, "V\t2\tRR\thot day"),
    (6, 3, "V\t2\tr\thot day"),
    (6, 3, "V\t2\tR \thot day"),
    (6, 2, "V\t1\tE\t"),
    (6, 3, "V\t2\tR\t"),
    (6, 2, "V\t1\tE\tabcdefghijklmnopqrstuvwxy"),
    (6, 3, "V\t2\tR\tabcdefghijklmnopqrstuvwxy"),
    (6, 3, "V\t2\tR\tfree cooling"),
    (6, 3, "V\t2\tE\tfree cooling"),
    // too many children, or too few at the last node
    (7, 4, "A\t0\t0\t0\t0\t0\t0\t0"),
    (7, 6, "A\t0\t1\t2\t3\t4\t5\t6"),
    (7, 9, "A\t3\t4\t0\t1\t2"),
    (7, 10, "A\t2\t5\t5"),
    (7, 10, "A\t2"),
    (7, 10, "L\t1"),
    (7, 10, "T"),
    (7, 10, "F"),
    // of two faults of a line the one with the lower number
    (2, 1, "G\t01\t7"),
    (2, 1, "G\t0\t7"),
    (2, 1, "G\t65\t7\t6\t6"),
    (2, 1, "G\t2\t4096\t12288\t"),
    (2, 2, "V\t2\tEE"),
    (2, 2, "V\t1\tE\tfree cooling \u{1f} and more heat"),
    (2, 3, "V\t03\tX\t\t"),
    (2, 4, "L\tx\r"),
    (2, 4, "T\tx"),
    (2, 6, "A\t01\u{7f}"),
    (2, 6, "A\t0\t1\t2\t3\t4\t5\t6\r"),
    (2, 10, "O\tx\t2"),
    (3, 1, "G\t0\t7\t06"),
    (3, 1, "G\t65\t4097\t65536"),
    (3, 1, "G\t65536\t0\t0"),
    (3, 1, "G\t2\t4096\t+1"),
    (3, 2, "V\t01\tEE\t"),
    (3, 3, "V\t\tR\tfree cooling"),
    (3, 6, "A\t0\t1\t2\t3\t4\t5\t06"),
    (3, 6, "A\t00\t1\t2\t3\t4\t5\t6"),
    (3, 10, "A\t"),
    (3, 10, "L\tx"),
    (4, 1, "G\t0\t4096\t12288"),
    (4, 1, "G\t65\t10\t9"),
    (4, 1, "G\t2\t10\t12289"),
    // of two lines the earlier
    (5, 1, "G\t2\t10\t6\nV"),
    (4, 1, "G\t0\t7\t6\nL"),
    (6, 2, "V\t1\tEE\tfree cooling\nV"),
    (3, 4, "L\tx\nA"),
    (7, 6, "A\t0\t1\t2\t3\t4\t5\t6\nA\t"),
];

#[test]
fn spoiled_lines(rt: HostRuntime) -> Result<(), Fail> {
    for (number, line, text) in LINES {
        let file = spoiled(HEADER, Some((*line, *text)), rt.alloc())?;
        check_read(
            &rt,
            file.as_bytes(),
            Some((*number, *line)),
            rt.alloc(),
            text,
        )?;
    }
    Ok(())
}

// What has not the form of a number.
const FORMS: &[&str] = &[
    "", "00", "01", "65536", "99999", "100000", "-", "--1", "+1", "1 ", " 1", "x", "1x", "/", ":",
];

// A line, and what stands in it before and behind a number.
const SLOTS: &[(usize, &str, &str)] = &[
    (1, "G\t", "\t7\t6"),
    (1, "G\t2\t", "\t6"),
    (1, "G\t2\t7\t", ""),
    (2, "V\t", "\tE\tfree cooling"),
    (3, "V\t", "\tR\thot day"),
    (4, "L\t", ""),
    (5, "L\t-", ""),
    (6, "A\t", "\t1"),
    (6, "A\t0\t", ""),
    (9, "A\t", "\t4"),
    (9, "A\t3\t", ""),
    (10, "O\t", "\t2\t5"),
    (10, "O\t2\t", "\t5"),
    (10, "O\t2\t2\t", ""),
];

#[test]
fn spoiled_numbers(rt: HostRuntime) -> Result<(), Fail> {
    for (line, before, behind) in SLOTS {
        for form in FORMS {
            let text = format!(in rt.alloc(); "{before}{form}{behind}")?;
            let file = spoiled(HEADER, Some((*line, text.as_str())), rt.alloc())?;
            check_read(&rt, file.as_bytes(), Some((3, *line)), rt.alloc(), &text)?;
        }
    }
    Ok(())
}

// A header, a line and a text in its place, and the number and the place of the refusal.
const HEADERS: &[(&str, Option<(usize, &str)>, u8, usize)] = &[
    // the counts of the plant's children
    ("G\t2\t7\t0", None, 7, 6),
    ("G\t2\t7\t1", None, 7, 6),
    ("G\t2\t7\t2", None, 7, 9),
    ("G\t2\t7\t3", None, 7, 9),
    ("G\t2\t7\t4", None, 7, 10),
    ("G\t2\t7\t5", None, 7, 10),
    ("G\t2\t7\t7", None, 7, 10),
    ("G\t2\t7\t8", None, 7, 10),
    ("G\t2\t6\t6", None, 7, 9),
    // each child's form is judged before the count
    ("G\t2\t7\t1", Some((6, "A\t0\tx")), 3, 6),
    ("G\t2\t7\t1", Some((6, "A\tx\t1")), 3, 6),
    ("G\t2\t7\t0", Some((6, "A\t0\t1\t2\t65536")), 3, 6),
    ("G\t2\t7\t5", Some((10, "O\t2\t2\t05")), 3, 10),
    ("G\t2\t7\t5", Some((10, "O\t2\t\t5")), 3, 10),
    ("G\t2\t7\t7", Some((10, "O\t+2\t2\t5")), 3, 10),
    // a node where a variable is due, a variable or a weight where a node is due
    ("G\t3\t7\t6", None, 2, 4),
    ("G\t64\t7\t6", None, 2, 4),
    ("G\t1\t7\t6", None, 2, 3),
    ("G\t2\t8\t6", None, 2, 11),
];

#[test]
fn spoiled_headers(rt: HostRuntime) -> Result<(), Fail> {
    for (header, change, number, place) in HEADERS {
        let file = spoiled(*header, *change, rt.alloc())?;
        check_read(
            &rt,
            file.as_bytes(),
            Some((*number, *place)),
            rt.alloc(),
            &format_args!("{header}: {change:?}"),
        )?;
    }
    Ok(())
}

#[test]
fn short_stores(rt: HostRuntime) -> Result<(), Fail> {
    let file = plant(rt.alloc())?;
    for (node_room, child_room) in [(6, 6), (7, 5), (6, 5), (0, 6), (7, 0), (0, 0)] {
        let case = format!(in rt.alloc(); "{node_room} {child_room}")?;
        Stores::new(node_room, child_room, rt.alloc())?.check_read(
            &rt,
            file.as_bytes(),
            Some((5, 1)),
            (&NODES, 0),
            (&CHILDREN, 0),
            &case,
        );
    }
    Ok(())
}

// How many lines are closed in a text.
fn closed_lines(text: &[u8]) -> usize {
    text.iter().filter(|byte| **byte == b'\n').count()
}

// A file that is cut off lacks a line or the end of one, whatever else is wrong with that line.
#[test]
fn cut_anywhere(rt: HostRuntime) -> Result<(), Fail> {
    let file = plant(rt.alloc())?;
    let bytes = file.as_bytes();
    for i in 0..bytes.len() {
        let front = &bytes[..i];
        let due = match i {
            0 => Some((1, 0)),
            1..TABLE_LENGTH => Some((2, closed_lines(front).saturating_add(1))),
            _ => None,
        };
        check_read(&rt, front, due, rt.alloc(), &i)?;
    }
    assert_eq!(rt; closed_lines(bytes), 11);
    check_read(&rt, b"G\t0\t7\t6", Some((2, 1)), rt.alloc(), &"no node")
}

// Each byte in the place of the space in `hot day`, which is byte 36 of the file.
#[test]
fn each_byte(rt: HostRuntime) -> Result<(), Fail> {
    let file = plant(rt.alloc())?;
    let mut bytes = file.as_bytes().to_vec(rt.alloc())?;
    for byte in 0..=255u8 {
        let due = match byte {
            b'\n' => Some((2, 4)),
            32..=126 => None,
            _ => Some((2, 3)),
        };
        assert!(rt; 36 < bytes.len());
        bytes[36] = byte;
        check_read(&rt, bytes.as_slice(), due, rt.alloc(), &byte)?;
    }
    Ok(())
}

#[test]
fn length_of_a_file(rt: HostRuntime) -> Result<(), Fail> {
    let file = plant(rt.alloc())?;
    let mut bytes = file.as_bytes().to_vec(rt.alloc())?;
    bytes.resize(65536, b'7')?;
    check_read(&rt, bytes.as_slice(), None, rt.alloc(), &"longest")?;
    bytes.push(b'7')?;
    check_read(&rt, bytes.as_slice(), Some((1, 0)), rt.alloc(), &"too long")
}
