//! How far the reader of a table file has come.
ghost use Rattle.std.specs.Prelude.{◌≡◌, ◌+◌, ◌^◌, ◌<◌, ◌≤◌, true, false, length};
ghost use Rattle.std.specs.List.{list_all};
ghost use Rattle.text.specs.Format.{header_of, listed, variables_of};

use crate::fault::Reason;
use crate::fields::{field_count, printable_line};
use crate::kind::{LineKind, Section, line_kind};
use crate::lines::{header_line, variable_line};
use crate::nodes::{node_line, write_numbers};
use crate::record::{Header, Node, Variables};

/// What has been read: the header, the variables, how many node records and child numbers the
/// stores hold, and the number and the place of the line that is due. Before the first line all
/// counts of the header are 0.
#[derive(Drop)]
pub struct Progress<'n, 'c> {
    pub header: Header,
    pub variables: Variables,
    pub nodes: usize,
    pub children: usize,
    pub line: usize,
    pub place: usize,
    pub node_store: &'n mut [Node],
    pub child_store: &'c mut [u16],
    ghost first_line: { 1 ≤ line },
    ghost start: { line ≡ 1 → header ≡ header_of 0 0 0 },
    ghost variables_are: { variables ≡ variables_of (listed variables) },
    ghost limit_variables: { header.variables ≤ 64 },
    ghost limit_children: { header.children ≤ 12288 },
    ghost room_nodes: { header.nodes ≤ length node_store.now },
    ghost room_children: { header.children ≤ length child_store.now },
    ghost nodes_within: { nodes ≤ header.nodes },
    ghost children_within: { children ≤ header.children },
    ghost lines: { line ≤ place + 1 },
    ghost places: { place ≤ 65536 },
}

impl<'n, 'c> Progress<'n, 'c> {
    ghost use Rattle.text.specs.Lines.{printable};
    ghost use Rattle.text.specs.Format.{section_of, is_complete, fitting, nothing_yet};
    ghost use Rattle.text.specs.Steps.{sofar, says_in, says, next_says, Steps};
    ghost use Rattle.text.specs.declared.kind.LineKind.TheVariants as kind;
    ghost use Rattle.text.specs.declared.kind.Section.TheVariants as section;

    /// Nothing has been read yet.
    pub(crate) fn new(node_store: &'n mut [Node], child_store: &'c mut [u16]) -> Progress<'n, 'c>
        ensures begins { sofar result ≡ nothing_yet }
        ensures same_nodes { result.node_store.ghost_name ≡ node_store.entry.ghost_name }
        ensures same_children { result.child_store.ghost_name ≡ child_store.entry.ghost_name }
        ensures nodes { result.node_store.now ≡ node_store.old }
        ensures children { result.child_store.now ≡ child_store.old }
    {
        Progress {
            header: Header::default(),
            variables: Variables::none(),
            nodes: 0,
            children: 0,
            line: 1,
            place: 0,
            node_store,
            child_store,
        }
    }

    /// The section that the line that is due belongs to.
    fn section(&self) -> Section
        ensures { result ≡ section_of (sofar self.now) }
    {
        if self.line == 1 {
            Section::Header
        } else if self.variables.as_slice().len() < self.header.variables as usize {
            Section::Variables
        } else {
            Section::Nodes
        }
    }

    /// Whether every line that is due has been read.
    pub(crate) fn is_complete(&self) -> bool
        ensures { result ≡ is_complete (sofar self.now) }
    {
        self.line > 1
            && self.variables.as_slice().len() >= self.header.variables as usize
            && self.nodes >= self.header.nodes as usize
    }

    /// Whether a node may have so many children more.
    fn children_fit(&self, count: usize) -> bool
        requires { self.now.children + count < 2 ^ 64 }
        ensures { result ≡ fitting self.now.header self.now.nodes self.now.children count }
    {
        let used = self.children + count;
        used <= self.header.children as usize
            && (self.header.nodes as usize > self.nodes + 1
                || used >= self.header.children as usize)
    }

    /// The header line.
    fn take_header(&mut self, line: &[u8]) -> Result<(), Reason>
        requires first { self.old.line ≡ 1 }
        requires room { self.old.place + (length line.now + 1) ≤ 65536 }
        ensures { Steps (says_in section.Header kind.Header line.now) self.old self.new result }
    {
        let header = header_line(line, self.node_store.len(), self.child_store.len())?;
        self.place += line.len() + 1;
        self.line += 1;
        self.header = header;
        Ok(())
    }

    /// A variable line.
    fn take_variable(&mut self, line: &[u8]) -> Result<(), Reason>
        requires due { length (listed self.old.variables) < self.old.header.variables }
        requires room { self.old.place + (length line.now + 1) ≤ 65536 }
        ensures { Steps (says_in section.Variables kind.Variable line.now) self.old self.new result }
    {
        let variable = variable_line(line, &self.variables)?;
        self.variables.push(variable);
        self.place += line.len() + 1;
        self.line += 1;
        Ok(())
    }

    /// A node line. The line is judged as a whole before anything is written.
    fn take_node(&mut self, line_kind: LineKind, line: &[u8]) -> Result<(), Reason>
        requires due { self.old.nodes < self.old.header.nodes }
        requires room { self.old.place + (length line.now + 1) ≤ 65536 }
        ensures { Steps (says_in section.Nodes line_kind line.now) self.old self.new result }
    {
        let said = node_line(line_kind, line)?;
        let count = field_count(line) - said.from;
        if !self.children_fit(count) {
            return Err(Reason::Children);
        }
        write_numbers(line, said.from, self.child_store, self.children);
        self.node_store[self.nodes] = Node {
            form: said.form,
            first: self.children as u16,
            count: count as u16,
        };
        self.nodes += 1;
        self.children += count;
        self.place += line.len() + 1;
        self.line += 1;
        Ok(())
    }

    /// One line: the section and the line's kind together decide what it says.
    fn take_line(&mut self, line: &[u8]) -> Result<(), Reason>
        requires due { is_complete (sofar self.old) ≡ false }
        requires room { self.old.place + (length line.now + 1) ≤ 65536 }
        requires printable { list_all printable line.now ≡ true }
        ensures { Steps (says line.now) self.old self.new result }
    {
        match (self.section(), line_kind(line)) {
            (Section::Header, LineKind::Header) => self.take_header(line),
            (Section::Variables, LineKind::Variable) => self.take_variable(line),
            (Section::Nodes, kind) => self.take_node(kind, line),
            _ => Err(Reason::Line),
        }
    }

    /// The next line of a file, which has to have one more.
    pub(crate) fn take_next(&mut self, file: &[u8]) -> Result<(), Reason>
        requires due { is_complete (sofar self.old) ≡ false }
        requires within { self.old.place ≤ length file.now }
        requires short { length file.now ≤ 65536 }
        ensures { Steps (next_says file.now) self.old self.new result }
    {
        let line = printable_line(&file[self.place..]).ok_or(Reason::Line)?;
        self.take_line(line)
    }
}
