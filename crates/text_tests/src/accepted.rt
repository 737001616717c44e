//! Files that are accepted, and what they leave in the stores.
use crate::plant::*;
use crate::stores::{Shown, Stores};
use std::alloc::Global;
use std::process::Abort;
use std::test::Fail;
use text::record::{Form, Role, Variables};

// What a file says.
#[derive(Clone, Copy)]
struct Said {
    variables: &'static [(Role, &'static str)],
    nodes: &'static [Shown],
    children: &'static [u16],
    weights: usize,
}

const PLANT: Said = Said {
    variables: &[(Role::Option, "free cooling"), (Role::Chance, "hot day")],
    nodes: &NODES,
    children: &CHILDREN,
    weights: TABLE_LENGTH,
};

// Each kind of node, and numbers at their edges. No weight text follows.
const KINDS: &str = "\
G\t3\t7\t6
V\t1\tR\ta
V\t2\tE\t ~
V\t3\tR\tabcdefghijklmnopqrstuvwx
T
F
L\t-0
L\t65535
A\t0
A\t2\t1\t65535
O\t65535\t65535\t0
";

const OFF_0: Form = Form::Literal {
    variable: 0,
    on: false,
};

const ON_65535: Form = Form::Literal {
    variable: 65535,
    on: true,
};

const KINDS_SAID: Said = Said {
    variables: &[
        (Role::Chance, "a"),
        (Role::Option, " ~"),
        (Role::Chance, "abcdefghijklmnopqrstuvwx"),
    ],
    nodes: &[
        (Form::True, 0, 0),
        (Form::False, 0, 0),
        (OFF_0, 0, 0),
        (ON_65535, 0, 0),
        (Form::And, 0, 1),
        (Form::And, 1, 3),
        (Form::Fork { variable: 65535 }, 4, 2),
    ],
    children: &[0, 2, 1, 65535, 65535, 0],
    weights: 105,
};

// The smallest file. What follows it is no line of a table.
const LEAST: &str = "G\t1\t1\t0\nV\t1\tE\tx\nF\n\u{0}G\u{7f}";

const LEAST_SAID: Said = Said {
    variables: &[(Role::Option, "x")],
    nodes: &[(Form::False, 0, 0)],
    children: &[],
    weights: 18,
};

fn check_variables(rt: &impl Abort, variables: &Variables, due: &[(Role, &str)], case: &str) {
    assert_eq!(rt; variables.as_slice().len(), due.len(), "{case}");
    for (variable, (role, name)) in variables.as_slice().iter().zip(due) {
        assert_eq!(rt; variable.role, *role, "{name}: {case}");
        assert_eq!(rt; variable.name.as_bytes(), name.as_bytes(), "{name}: {case}");
    }
}

// The file is read so into stores with so many places more than it needs, which it leaves alone.
fn check_said(
    rt: &impl Abort,
    file: &[u8],
    due: Said,
    more: usize,
    heap: Global,
    case: &str,
) -> Result<(), Fail> {
    let nodes = due.nodes.len();
    let children = due.children.len();
    let mut stores = Stores::new(
        nodes.saturating_add(more),
        children.saturating_add(more),
        heap,
    )?;
    let Ok(contents) = stores.read(file) else {
        return Err(Fail::new(format_args!("refused: {case}")));
    };
    assert_eq!(rt;
        (
            usize::from(contents.nodes),
            usize::from(contents.children),
            contents.weights,
        ),
        (nodes, children, due.weights),
        "{case}"
    );
    check_variables(rt, &contents.variables, due.variables, case);
    stores.check(rt, (due.nodes, nodes), (due.children, children), &case);
    Ok(())
}

#[test]
fn whole_files(rt: HostRuntime) -> Result<(), Fail> {
    let file = plant(rt.alloc())?;
    for more in [0, 1, 30] {
        check_said(&rt, file.as_bytes(), PLANT, more, rt.alloc(), "plant")?;
        check_said(&rt, KINDS.as_bytes(), KINDS_SAID, more, rt.alloc(), "kinds")?;
        check_said(&rt, LEAST.as_bytes(), LEAST_SAID, more, rt.alloc(), "least")?;
    }
    Ok(())
}

// A header, a line and a text in its place, and where the weight text then begins.
const SOUND: &[(&str, Option<(usize, &str)>, usize)] = &[
    (HEADER, Some((2, "V\t1\tE\tabcdefghijklmnopqrstuvwx")), 91),
    (HEADER, Some((3, "V\t2\tE\thot day")), 79),
    (HEADER, Some((3, "V\t2\tR\tfree coolin")), 83),
    (HEADER, Some((3, "V\t2\tR\tfree cooling ")), 85),
    (HEADER, Some((3, "V\t2\tR\tFree cooling")), 84),
    (HEADER, Some((4, "L\t-0")), 80),
    (HEADER, Some((4, "L\t0")), 79),
    (HEADER, Some((5, "T")), 76),
    (HEADER, Some((10, "A\t2\t5")), 77),
    ("G\t2\t7\t5", Some((9, "A\t3")), 77),
    ("G\t2\t6\t4", None, 71),
    (HEADER, Some((11, "")), 79),
    (HEADER, Some((11, "W\t\u{1f}")), 79),
];

#[test]
fn sound_lines(rt: HostRuntime) -> Result<(), Fail> {
    for (header, change, weights) in SOUND {
        let file = spoiled(*header, *change, rt.alloc())?;
        let mut stores = Stores::new(7, 6, rt.alloc())?;
        let Ok(contents) = stores.read(file.as_bytes()) else {
            return Err(Fail::new(format_args!("refused: {header}: {change:?}")));
        };
        assert_eq!(rt; contents.weights, *weights, "{header}: {change:?}");
    }
    Ok(())
}
