//! A file's table in stores on the heap.
ghost use Rattle.std.specs.Prelude.{◌≡◌, drop, IfOk, IfErr, Err};
ghost use Rattle.parts.specs.Parts.{largest, check_parts, IsTableOf, Reads};

use std::alloc::{AllocError, Global};
use table::fault::Fault as TableFault;
use table::table::Table;
use text::fault::Fault;
use text::reader::read_table;
use text::record::{Contents, Form, Node};

/// How many bytes of a file are read: one more than it may have, so that one that is too long is seen
/// to be.
pub const MOST_READ: u64 = 65537;

const _: () = prove!(MOST_READ > 65536);

/// How many node records and child numbers the stores that a file is read into have room for.
#[derive(Clone, Copy)]
pub struct Room {
    pub nodes: usize,
    pub children: usize,
}

impl Room {
    /// Room for the largest table of the limits.
    pub fn largest() -> Room
        ensures { result ≡ largest }
    {
        Room {
            nodes: 4096,
            children: 12288,
        }
    }
}

// The counts in `contents` are the file's own, and the lists are cut to them.
/// The parts of a table: what its file says, its nodes and its child numbers.
#[derive(Drop)]
pub struct Parts {
    pub contents: Contents,
    pub nodes: Vec<Node>,
    pub children: Vec<u16>,
}

impl Parts {
    /// A file's parts, or why the file is refused.
    #[tactic(auto, using(crate::proofs::Filling::written_front))]
    pub fn read(heap: Global, room: &Room, file: &[u8]) -> Result<Result<Parts, Fault>, AllocError>
        ensures { IfOk result (λ answer. Reads room.now file.now answer) }
    {
        let unused = Node {
            form: Form::False,
            first: 0,
            count: 0,
        };
        let mut nodes = vec![in heap; unused; room.nodes]?;
        let mut children = vec![in heap; 0; room.children]?;
        let answer = read_table(file, &mut nodes, &mut children);
        Ok(answer.map(|contents| {
            nodes.truncate(contents.nodes as usize);
            children.truncate(contents.children as usize);
            Parts {
                contents,
                nodes,
                children,
            }
        }))
    }

    /// The table of these parts, or why the check refuses them.
    #[inline(always)]
    pub fn table(&self) -> Result<Table<'_>, TableFault>
        ensures table { IfOk result (λ t. IsTableOf self.now t) }
        ensures fault { IfErr result (λ f. check_parts self.now ≡ Err f) }
    {
        Table::check(&self.nodes, &self.children, self.contents.variables)
    }

    /// The weight text: what stands in the file behind the table.
    pub fn weights<'a>(&self, file: &'a [u8]) -> &'a [u8]
        ensures { result.now ≡ drop self.now.contents.weights file.now }
    {
        file.get(self.contents.weights..).unwrap_or(&[])
    }
}
