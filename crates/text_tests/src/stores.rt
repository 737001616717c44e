//! The stores that a file is read into, and what the reader makes of it.
use std::alloc::{AllocError, Global};
use std::fmt::{Debug, Display};
use std::process::Abort;
use text::fault::{Fault, Layer, Refusal};
use text::reader::read_table;
use text::record::{Contents, Form, Node};

/// A node: what it is, where its children begin, and how many they are.
pub type Shown = (Form, u16, u16);

/// The number and the place of a refusal.
pub type NumberAndPlace = (u8, usize);

const NODE_MARK: Node = Node {
    form: Form::False,
    first: 901,
    count: 902,
};

const CHILD_MARK: u16 = 903;

/// A node store and a child store, full of marks before a file is read.
#[derive(Drop)]
pub struct Stores {
    nodes: Vec<Node>,
    children: Vec<u16>,
}

// The first elements of a list, at most so many.
fn front<T>(all: &[T], count: usize) -> &[T] {
    &all[..count.min(all.len())]
}

fn shown(node: &Node) -> Shown {
    (node.form, node.first, node.count)
}

// A store holds what was written, and behind it the mark.
fn check_store<T, S: Copy + PartialEq + Debug, F: Fn(&T) -> S>(
    rt: &impl Abort,
    store: &[T],
    shown: F,
    written: &[S],
    mark: &S,
    case: &impl Display,
)
    requires { F.IsAlwaysCallable shown }
{
    for (i, entry) in store.iter().enumerate() {
        let due = written.get(i).unwrap_or(mark);
        assert_eq!(rt; shown(entry), *due, "place {i}: {case}");
    }
}

impl Stores {
    pub(crate) fn new(
        node_room: usize,
        child_room: usize,
        heap: Global,
    ) -> Result<Stores, AllocError> {
        let nodes = vec![in heap; NODE_MARK; node_room]?;
        let children = vec![in heap; CHILD_MARK; child_room]?;
        Ok(Stores { nodes, children })
    }

    pub(crate) fn read(&mut self, file: &[u8]) -> Result<Contents, Fault> {
        read_table(
            file,
            self.nodes.as_mut_slice(),
            self.children.as_mut_slice(),
        )
    }

    /// The refusal that a file meets, if it meets one.
    fn refusal(
        &mut self,
        rt: &impl Abort,
        file: &[u8],
        case: &impl Display,
    ) -> Option<NumberAndPlace> {
        match self.read(file) {
            Ok(_) => None,
            Err(fault) => {
                assert!(rt;
                    matches!(fault.layer(), Layer::Text),
                    "another layer: {case}"
                );
                Some((fault.number(), fault.place()))
            }
        }
    }

    /// A file meets this refusal or none, and leaves so many of these nodes and children.
    pub(crate) fn check_read(
        &mut self,
        rt: &impl Abort,
        file: &[u8],
        due: Option<NumberAndPlace>,
        nodes: (&[Shown], usize),
        children: (&[u16], usize),
        case: &impl Display,
    ) {
        assert_eq!(rt; self.refusal(rt, file, case), due, "{case}");
        self.check(rt, nodes, children, case)
    }

    /// The stores hold so many of these nodes and of these children, and behind them the marks.
    pub(crate) fn check(
        &self,
        rt: &impl Abort,
        (nodes, node_count): (&[Shown], usize),
        (children, child_count): (&[u16], usize),
        case: &impl Display,
    ) {
        let nodes = front(nodes, node_count);
        let mark = shown(&NODE_MARK);
        check_store(rt, self.nodes.as_slice(), shown, nodes, &mark, case);
        let children = front(children, child_count);
        check_store(
            rt,
            self.children.as_slice(),
            |c| *c,
            children,
            &CHILD_MARK,
            case,
        );
    }
}
