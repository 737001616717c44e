//! The check of a table: its limits, then each node, then the root.
ghost use Rattle.std.specs.Prelude.{◌≡◌, ◌≤◌, true, length, is_ok, Decides};
ghost use Rattle.table.specs.Nodes.{shapes, roles_of};
ghost use Rattle.table.specs.NodeSets.{mentions_in};
ghost use Rattle.table.specs.Check.{counts_within, circuit_says, check_says};
ghost use Rattle.table.specs.Facts.{Accepts, Means};

use crate::fault::{Fault, Flaw};
use crate::node::Before;
use crate::sets::{Mentions, NodeSets, chance_set};
use text::fault::{Fault as TextFault, Reason};
use text::record::{Node, Variables};

/// Checks a table: what each node mentions, or the first refusal that fits.
pub fn check(nodes: &[Node], children: &[u16], variables: &Variables) -> Result<Mentions, Fault>
    ensures answer { result ≡ check_says variables.now nodes.now children.now }
    ensures yes { Decides (is_ok result) (Accepts variables.now nodes.now children.now) }
    ensures meaning { is_ok result ≡ true → Means variables.now nodes.now children.now }
{
    if !counts_within(nodes, variables) {
        return Err(Fault::Text(TextFault::Line {
            reason: Reason::Limit,
            line: 1,
        }));
    }
    if variables.options() > 20 {
        return Err(Fault::Text(TextFault::Line {
            reason: Reason::Variable,
            line: variables.count as usize + 1,
        }));
    }
    check_nodes(nodes, children, variables)
}

/// Whether there are 1 to 4096 nodes, and at least one variable.
fn counts_within(nodes: &[Node], variables: &Variables) -> bool
    ensures { result ≡ counts_within variables.now nodes.now }
{
    variables.count >= 1 && nodes.len() >= 1 && nodes.len() <= 4096
}

/// Checks the nodes of a table, each by what is known of those before it, and then the root.
fn check_nodes(nodes: &[Node], children: &[u16], variables: &Variables) -> Result<Mentions, Fault>
    requires some { 1 ≤ length nodes.now }
    requires few { length nodes.now ≤ 4096 }
    ensures { result ≡ circuit_says (roles_of variables.now) (shapes children.now nodes.now) }
{
    let count = variables.as_slice().len();
    let chances = chance_set(variables);
    let mut known = [NodeSets::default(); 4096];
    for (i, node) in nodes.iter().enumerate() {
        let before = Before {
            nodes: &known[..i],
            count,
            chances,
        };
        if let Some(flaw) = before.flaw_of(*node, children) {
            return Err(Fault::Node { flaw, node: i });
        }
        known[i] = before.sets_of(*node, nodes, children);
    }
    let root = nodes.len() - 1;
    if known[root].mentions & chances != chances {
        return Err(Fault::Node {
            flaw: Flaw::Missing,
            node: root,
        });
    }
    Ok(mentions_of(&known[..nodes.len()]))
}

/// What the nodes mention, of which the sets are known.
fn mentions_of(known: &[NodeSets]) -> Mentions
    requires { length known.now ≤ 4096 }
    ensures { result ≡ mentions_in known.now }
{
    // By place: `array::from_fn` was tried, and the proof did not close.
    let mut sets = [0; 4096];
    for (i, node) in known.iter().enumerate() {
        sets[i] = node.mentions;
    }
    Mentions { sets }
}
