//! Sets of variables as numbers: bit v - 1 is variable v.
ghost use Rattle.std.specs.Prelude.{◌≡◌, ◌<◌, ◌≤◌, true, not, length, slice_index_or};
ghost use Rattle.std.specs.List.{list_all};
ghost use Rattle.text.specs.Format.{is_option_role};
ghost use Rattle.table.specs.Sound.{known, is_below};
ghost use Rattle.table.specs.Nodes.{no_node, stretch, roles_of};
ghost use Rattle.table.specs.NodeSets.{apart_masks, nothing, literal_sets, with_child, with_children};
ghost use Rattle.table.specs.Sets.{bit, has_bit, chance_mask};

use text::record::{Form, Node, Role, Variables};

/// A number that no node has: there are at most 4096 nodes.
const NO_NODE: u16 = 65535;

/// For each node the set of variables that it mentions.
#[derive(Clone, Copy)]
pub struct Mentions {
    pub sets: [u64; 4096],
}

/// What is known of a node that has no flaw: the set of variables that it mentions, and those whose
/// on literal, or off literal, it has, as a literal or as an and with that child.
#[derive(Clone, Copy, Default)]
pub(crate) struct NodeSets {
    pub(crate) mentions: u64,
    pub(crate) on: u64,
    pub(crate) off: u64,
}

impl NodeSets {
    /// What is known of a literal.
    pub(crate) fn of_literal(variable: u16, on: bool) -> NodeSets
        requires { (0 < variable) × (variable ≤ 64) }
        ensures { result ≡ literal_sets variable on }
    {
        let bit = bit_of(variable);
        NodeSets {
            mentions: bit,
            on: if on { bit } else { 0 },
            off: if on { 0 } else { bit },
        }
    }

    /// What is known of an and.
    pub(crate) fn of_and(children: &[u16], nodes: &[Node], before: &[NodeSets]) -> NodeSets
        requires below { list_all (is_below (length before.now)) children.now ≡ true }
        requires within { length before.now ≤ length nodes.now }
        ensures { result ≡ with_children nothing nodes.now before.now children.now }
    {
        // A loop: the closure of a fold can't be told that each child may be read.
        let mut sets = NodeSets::default();
        for c in children {
            let place = *c as usize;
            sets = sets.with_child(nodes[place].form, before[place]);
        }
        sets
    }

    /// What is known of an and with one child more: it mentions all that the child mentions, and
    /// has its literal if it is one.
    fn with_child(self, form: Form, child: NodeSets) -> NodeSets
        ensures { result ≡ with_child self form child }
    {
        let mentions = self.mentions | child.mentions;
        match form {
            Form::Literal { variable: _, on: _ } => NodeSets {
                mentions,
                on: self.on | child.on,
                off: self.off | child.off,
            },
            Form::And | Form::Fork { variable: _ } | Form::True | Form::False => {
                NodeSets { mentions, ..self }
            }
        }
    }
}

/// Whether a variable is one of `count`.
pub(crate) fn is_known(variable: u16, count: usize) -> bool
    ensures { result ≡ known count variable }
{
    variable > 0 && variable as usize <= count
}

/// The set of one variable.
pub(crate) fn bit_of(variable: u16) -> u64
    requires { (0 < variable) × (variable ≤ 64) }
    ensures { result ≡ bit variable }
{
    1 << (variable - 1)
}

/// Whether a set has a variable.
pub fn contains(set: u64, variable: u16) -> bool
    requires { (0 < variable) × (variable ≤ 64) }
    ensures { result ≡ has_bit variable set }
{
    set & bit_of(variable) != 0
}

/// The set of the chances.
pub(crate) fn chance_set(variables: &Variables) -> u64
    ensures { result ≡ chance_mask (roles_of variables.now) }
{
    variables.as_slice().iter().rev().fold(
        0,
        |set, variable| set << 1 | u64::from(is_chance(variable.role)),
    )
}

/// Whether a role is a chance's.
fn is_chance(role: Role) -> bool
    ensures { result ≡ not (is_option_role role) }
{
    matches!(role, Role::Chance)
}

/// Whether each child's number is below the node's.
pub(crate) fn all_below(children: &[u16], node: usize) -> bool
    ensures { result ≡ list_all (is_below node) children.now }
{
    children.iter().all(|c| (*c as usize) < node)
}

/// Whether no two children mention one variable.
pub(crate) fn all_apart(children: &[u16], before: &[NodeSets]) -> bool
    requires { list_all (is_below (length before.now)) children.now ≡ true }
    ensures { result ≡ apart_masks 0 before.now children.now }
{
    let mut seen = 0;
    for c in children {
        let set = before[*c as usize].mentions;
        if seen & set != 0 {
            return false;
        }
        seen |= set;
    }
    true
}

/// The number of a child, or one that no node has.
pub(crate) fn child(children: &[u16], place: usize) -> usize
    ensures { result ≡ slice_index_or children.now place no_node }
{
    children.get(place).copied().unwrap_or(NO_NODE) as usize
}

/// The children of an and: its stretch of the store, or a number that no node has.
pub(crate) fn stretch_of(children: &[u16], first: u16, count: u16) -> &[u16]
    ensures { result.now ≡ stretch children.now first count }
{
    let first = first as usize;
    children
        .get(first..first + count as usize)
        .unwrap_or(&[NO_NODE])
}
