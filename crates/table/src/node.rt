//! One node, by what is known of the nodes before it.
ghost use Rattle.std.specs.Prelude.{◌≡◌, ◌≤◌, true, length, None};
ghost use Rattle.table.specs.Sound.{known, unless};
ghost use Rattle.table.specs.Nodes.{shape};
ghost use Rattle.table.specs.NodeSets.{and_flaw, fork_flaw, flaw_by, in_range, sets_by};

use crate::fault::Flaw;
use crate::sets::{NodeSets, all_apart, all_below, bit_of, child, is_known, stretch_of};
use text::record::{Form, Node};

/// What a node is judged by: what is known of the nodes before it, how many variables there are, and
/// the set of the chances.
#[derive(Drop)]
pub(crate) struct Before<'a> {
    pub(crate) nodes: &'a [NodeSets],
    pub(crate) count: usize,
    pub(crate) chances: u64,
    ghost few: { count ≤ 64 },
}

impl Before<'_> {
    /// The first flaw of a node.
    pub(crate) fn flaw_of(&self, node: Node, children: &[u16]) -> Option<Flaw>
        ensures { result ≡ flaw_by self.now.count self.now.chances self.now.nodes.now (shape children.now node) }
    {
        match node.form {
            Form::Literal { variable, on: _ } => self.literal_flaw(variable),
            Form::And => self.and_flaw(stretch_of(children, node.first, node.count)),
            Form::Fork { variable } => {
                let first = node.first as usize;
                self.fork_flaw(variable, child(children, first), child(children, first + 1))
            }
            Form::True | Form::False => None,
        }
    }

    /// The first flaw of a literal.
    fn literal_flaw(&self, variable: u16) -> Option<Flaw>
        ensures { result ≡ unless (known self.now.count variable) Flaw.Variable None }
    {
        (!is_known(variable, self.count)).then_some(Flaw::Variable)
    }

    /// The first flaw of an and.
    fn and_flaw(&self, children: &[u16]) -> Option<Flaw>
        ensures { result ≡ and_flaw self.now.nodes.now children.now }
    {
        if !all_below(children, self.nodes.len()) {
            Some(Flaw::Order)
        } else if !all_apart(children, self.nodes) {
            Some(Flaw::Shared)
        } else {
            None
        }
    }

    /// The first flaw of a fork, by the numbers of its branches.
    fn fork_flaw(&self, variable: u16, on: usize, off: usize) -> Option<Flaw>
        ensures { result ≡ fork_flaw self.now.count self.now.chances self.now.nodes.now variable on off }
    {
        let before = self.nodes;
        if on >= before.len() || off >= before.len() {
            return Some(Flaw::Order);
        }
        if !is_known(variable, self.count) {
            return Some(Flaw::Variable);
        }
        let bit = bit_of(variable);
        if before[on].on & bit == 0 || before[off].off & bit == 0 {
            return Some(Flaw::Branch);
        }
        if before[on].mentions & self.chances != before[off].mentions & self.chances {
            return Some(Flaw::Uneven);
        }
        None
    }

    /// What is known of a node that has no flaw.
    pub(crate) fn sets_of(&self, node: Node, nodes: &[Node], children: &[u16]) -> NodeSets
        requires in_range { in_range 64 (length self.now.nodes.now) (shape children.now node) ≡ true }
        requires within { length self.now.nodes.now ≤ length nodes.now }
        ensures { result ≡ sets_by nodes.now self.now.nodes.now (shape children.now node) }
    {
        match node.form {
            Form::Literal { variable, on } => NodeSets::of_literal(variable, on),
            Form::And => {
                let children = stretch_of(children, node.first, node.count);
                NodeSets::of_and(children, nodes, self.nodes)
            }
            Form::Fork { variable: _ } => {
                let first = node.first as usize;
                let on = self.nodes[child(children, first)];
                let off = self.nodes[child(children, first + 1)];
                NodeSets {
                    mentions: on.mentions | off.mentions,
                    ..NodeSets::default()
                }
            }
            Form::True | Form::False => NodeSets::default(),
        }
    }
}
