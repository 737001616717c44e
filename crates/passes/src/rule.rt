//! What the counting and the plain pass do: each values the nodes in order, each from those before
//! it, by a rule.
ghost use Rattle.std.specs.Prelude.{◌≡◌, ◌*◌, ◌<◌, ◌≤◌, true, length};
ghost use Rattle.table.specs.Circuit.{node};
ghost use Rattle.table.specs.Sound.{known};
ghost use Rattle.table.specs.Whole.{circuit, roles};
ghost use Rattle.passes.specs.declared.query.Query.{Query};
ghost use Rattle.passes.specs.NodeReads.{shape_in, ranged_in, readable_in, value_among};
ghost use Rattle.passes.specs.Ways.{Way, made};
ghost use Rattle.passes.specs.Written.{walk_left};

use crate::query::Query;
use crate::values::NodeValues;
use kinds::figure::Figure;
use text::record::{Form, Node};

/// The rule of a pass: what a literal counts, and how a fork joins its branches. True counts one.
pub(crate) trait Rule<K: Figure> {
    ghost way: { Self → Query K → Way K };

    /// The value of a literal.
    fn literal(&self, query: &Query<K>, variable: u16, on: bool) -> K
        requires { known (length (roles query.now.table.now)) variable ≡ true }
        ensures { result ≡ (way self.now query.now).leaf variable on };

    /// The value of a fork, from those of its branches.
    fn join(&self, query: &Query<K>, variable: u16, on: K, off: K) -> K
        ensures { result ≡ (way self.now query.now).join variable on off };

    ghost truth: { (s : Self) (q : Query K) → (way s q).edge ≡ K.ring.one };
}

impl<K: Figure> Query<'_, K> {
    /// The value of a node, from the values before it.
    fn node<W: Rule<K>>(&self, rule: &W, values: &NodeValues<K>, node: Node) -> K
        requires ranged { ranged_in self.now.table.now node ≡ true }
        requires readable { readable_in self.now.table.now values.now node ≡ true }
        ensures { let values_of = value_among K.ring values.now in
            result ≡ made K.ring (W.way rule.now self.now) values_of (shape_in self.now.table.now node) }
    {
        let children = self.table.children;
        let first = node.first as usize;
        match node.form {
            Form::Literal { variable, on } => rule.literal(self, variable, on),
            Form::And => values.product(&children[first..first + node.count as usize]),
            Form::Fork { variable } => {
                let on = values.value(children[first]);
                let off = values.value(children[first + 1]);
                rule.join(self, variable, on, off)
            }
            Form::True => K::one(),
            Form::False => K::zero(),
        }
    }

    /// The value of a node by its number, from the values before it.
    pub(crate) fn node_at<W: Rule<K>>(&self, rule: &W, values: &NodeValues<K>, number: usize) -> K
        requires node { number < length self.now.table.now.nodes.now }
        requires before { length values.now.places.now ≡ number * values.now.stride }
        ensures { let values_of = value_among K.ring values.now in
            result ≡ made K.ring (W.way rule.now self.now) values_of (node (circuit self.now.table.now) number) }
    {
        self.node(rule, values, self.table.nodes[number])
    }

    /// Writes the values of the nodes, in order, into the first places of `work`.
    pub(crate) fn pass<W: Rule<K>>(&self, rule: &W, work: &mut [K])
        requires room { length (circuit self.now.table.now) ≤ length work.old }
        ensures { work.new ≡ walk_left K.ring (W.way rule.now self.now) (circuit self.now.table.now) work.old }
    {
        for number in 0..self.table.nodes.len() {
            let values = NodeValues {
                places: &work[..number],
                stride: 1,
            };
            work[number] = self.node_at(rule, &values, number);
        }
    }
}
