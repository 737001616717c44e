//! Records that no reader wrote.
use crate::checking::{Due, check_answer};
use plants::files::file;
use plants::reading::read;
use std::test::Fail;
use text::record::{Form, Node, Variables};

const ON: Node = Node {
    form: Form::Literal {
        variable: 1,
        on: true,
    },
    first: 0,
    count: 0,
};

const OFF: Node = Node {
    form: Form::Literal {
        variable: 1,
        on: false,
    },
    first: 0,
    count: 0,
};

const FORK: Form = Form::Fork { variable: 1 };

const SOUND: Due = Ok(&[1, 1, 1]);

// What a third node behind the two literals is, where its children begin and how many they are,
// the child store, and what is due for one chance.
const CASES: &[(Form, u16, u16, &[u16], Due)] = &[
    // an and whose children pass the end of the store
    (Form::And, 0, 2, &[0], Err((8, 2))),
    (Form::And, 1, 1, &[0], Err((8, 2))),
    (Form::And, 0, 1, &[], Err((8, 2))),
    (Form::And, 65535, 1, &[0, 1], Err((8, 2))),
    (Form::And, 1, 65535, &[0, 1], Err((8, 2))),
    (Form::And, 65535, 65535, &[0, 1], Err((8, 2))),
    // a fork whose children do
    (FORK, 0, 2, &[0], Err((8, 2))),
    (FORK, 0, 2, &[], Err((8, 2))),
    (FORK, 1, 2, &[0, 1], Err((8, 2))),
    (FORK, 2, 2, &[0, 1], Err((8, 2))),
    (FORK, 65534, 2, &[0, 1], Err((8, 2))),
    (FORK, 65535, 2, &[0, 1], Err((8, 2))),
    // children that end with the store, or before
    (Form::And, 1, 1, &[9, 0], SOUND),
    (Form::And, 1, 1, &[9, 0, 9], SOUND),
    (FORK, 1, 2, &[9, 0, 1], SOUND),
    (FORK, 1, 2, &[9, 0, 1, 9], SOUND),
    (Form::And, 1, 0, &[0], Err((13, 2))),
    // a number in the store that no node has
    (Form::And, 1, 1, &[0, 65535], Err((8, 2))),
    (FORK, 0, 2, &[0, 65535], Err((8, 2))),
];

#[test]
fn records(rt: HostRuntime) -> Result<(), Fail> {
    let text = file("R", "T", rt.alloc())?;
    let variables = read(text.as_str(), rt.alloc())?.contents.variables;
    for (form, first, count, children, due) in CASES {
        let node = Node {
            form: *form,
            first: *first,
            count: *count,
        };
        check_answer(
            &rt,
            &[ON, OFF, node],
            *children,
            &variables,
            *due,
            &format_args!("{first} {count}"),
        );
    }
    Ok(())
}

// How many true nodes, how many options, and the refusal, or that no node mentions anything.
const COUNTS: &[(usize, u8, Due)] = &[
    (1, 1, Ok(&[])),
    (4096, 20, Ok(&[])),
    (0, 1, Err((4, 1))),
    (4097, 1, Err((4, 1))),
    (65537, 1, Err((4, 1))),
    (1, 0, Err((4, 1))),
    (0, 0, Err((4, 1))),
    (1, 21, Err((6, 22))),
    (4096, 64, Err((6, 65))),
    (0, 21, Err((4, 1))),
    (4097, 64, Err((4, 1))),
];

#[test]
fn counts(rt: HostRuntime) -> Result<(), Fail> {
    let text = file("E", "T", rt.alloc())?;
    let option = read(text.as_str(), rt.alloc())?.contents.variables.all[0];
    for (nodes, options, due) in COUNTS {
        assert!(rt; *options <= 64);
        let variables = Variables {
            all: [option; 64],
            count: *options,
        };
        let leaf = Node {
            form: Form::True,
            first: 0,
            count: 0,
        };
        let nodes = vec![in rt.alloc(); leaf; *nodes]?;
        check_answer(
            &rt,
            nodes.as_slice(),
            &[],
            &variables,
            *due,
            &format_args!("{} nodes", nodes.len()),
        );
    }
    Ok(())
}
