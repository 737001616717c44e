//! The values of the nodes, in the work table.
ghost use Rattle.std.specs.Prelude.{◌≡◌, ◌<◌, true, length, map};
ghost use Rattle.std.specs.List.{list_all};
ghost use Rattle.passes.specs.Passes.{times};

use kinds::figure::Figure;

/// The values of the nodes that are worked out: a part of `stride` places for each node, its value
/// first.
#[derive(Drop)]
pub(crate) struct NodeValues<'a, K> {
    pub(crate) places: &'a [K],
    pub(crate) stride: usize,
    ghost wide: { 0 < stride },
}

impl<K: Figure> NodeValues<'_, K> {
    ghost use Rattle.passes.specs.NodeReads.{has_part, value_among};

    /// The value of a node.
    pub(crate) fn value(&self, node: u16) -> K
        requires { has_part self.now node ≡ true }
        ensures { result ≡ value_among K.ring self.now node }
    {
        self.places[node as usize * self.stride]
    }

    /// The product of the children's values.
    pub(crate) fn product(&self, children: &[u16]) -> K
        requires { list_all (has_part self.now) children.now ≡ true }
        ensures { result ≡ times K.ring (map (value_among K.ring self.now) children.now) }
    {
        // A loop: the closure of a fold can't be told that each child may be read.
        let mut all = K::one();
        for child in children {
            all = all.times(self.value(*child));
        }
        all
    }
}
