//! Files at the limits.
use crate::stores::{NumberAndPlace, Stores};
use std::alloc::{AllocError, Global};
use std::test::Fail;
use text::record::Form;

// A file with the highest counts: 64 variables, of which the first `options` are options, 4095
// true nodes, and an and of so many children.
fn large(
    options: usize,
    last_variable: &str,
    children: usize,
    heap: Global,
) -> Result<String, AllocError> {
    let mut file = String::from_str(heap, "G\t64\t4096\t12288\n")?;
    for i in 1..64usize {
        let letter = if i <= options { "E" } else { "R" };
        write!(file, "V\t{i}\t{letter}\tname {i}\n")?;
    }
    let nodes = "\nT".repeat(heap, 4095)?;
    let children = "\t7".repeat(heap, children)?;
    format!(in heap; "{file}{last_variable}{nodes}\nA{children}\n")
}

// Lines for the last variable: one that is sound, and others.
const LAST: &str = "V\t64\tR\tname 64";

const OPTION: &str = "V\t64\tE\tname 64";

const NAME_1: &str = "V\t64\tR\tname 1";

const NAME_63: &str = "V\t64\tR\tname 63";

const NUMBER_65: &str = "V\t65\tR\tname 64";

// A number of nodes and a number of children.
type Counts = (usize, usize);

// Options, the last variable's line, children, the lengths of the stores, the refusal, and how much
// is written into the stores.
const CASES: &[(usize, &str, usize, Counts, Option<NumberAndPlace>, Counts)] = &[
    (20, LAST, 12288, (4096, 12288), None, (4096, 12288)),
    (20, LAST, 12288, (4097, 12289), None, (4096, 12288)),
    (20, LAST, 12288, (4095, 12288), Some((5, 1)), (0, 0)),
    (20, LAST, 12288, (4096, 12287), Some((5, 1)), (0, 0)),
    (21, LAST, 12288, (4096, 12288), Some((6, 22)), (0, 0)),
    (63, LAST, 12288, (4096, 12288), Some((6, 22)), (0, 0)),
    (20, OPTION, 12288, (4096, 12288), Some((6, 65)), (0, 0)),
    (20, NAME_1, 12288, (4096, 12288), Some((6, 65)), (0, 0)),
    (20, NAME_63, 12288, (4096, 12288), Some((6, 65)), (0, 0)),
    (20, NUMBER_65, 12288, (4096, 12288), Some((6, 65)), (0, 0)),
    (20, LAST, 12289, (4096, 12288), Some((7, 4161)), (4095, 0)),
    (20, LAST, 12287, (4096, 12288), Some((7, 4161)), (4095, 0)),
    (20, LAST, 0, (4096, 12288), Some((2, 4161)), (4095, 0)),
];

#[test]
fn at_the_limits(rt: HostRuntime) -> Result<(), Fail> {
    let mut nodes = vec![in rt.alloc(); (Form::True, 0, 0); 4095]?;
    nodes.push((Form::And, 0, 12288))?;
    let children = vec![in rt.alloc(); 7; 12288]?;
    for (options, last, count, rooms, due, written) in CASES {
        let file = large(*options, *last, *count, rt.alloc())?;
        Stores::new(rooms.0, rooms.1, rt.alloc())?.check_read(
            &rt,
            file.as_bytes(),
            *due,
            (nodes.as_slice(), written.0),
            (children.as_slice(), written.1),
            last,
        );
    }
    Ok(())
}

#[test]
fn counts_at_the_limits(rt: HostRuntime) -> Result<(), Fail> {
    let file = large(20, LAST, 12288, rt.alloc())?;
    let Ok(contents) = Stores::new(4096, 12288, rt.alloc())?.read(file.as_bytes()) else {
        return Err(Fail::new("refused"));
    };
    assert_eq!(rt;
        (
            contents.variables.as_slice().len(),
            contents.nodes,
            contents.children,
            contents.weights,
        ),
        (64, 4096, 12288, file.len())
    );
    Ok(())
}
