//! The plain pass: a value for every node, for holds. A free option counts as it suits best.
ghost use Rattle.std.specs.Prelude.{◌≡◌, refl, ◌≤◌, length};
ghost use Rattle.table.specs.Whole.{circuit, roles};
ghost use Rattle.passes.specs.Problem.{problem};
ghost use Rattle.passes.specs.Ways.{joined, plain_way};
ghost use Rattle.passes.specs.Written.{plains_left};

use crate::query::Query;
use crate::rule::Rule;
use kinds::figure::{Figure, greater};

/// A chance's literal counts its weight; an option's zero if a hold contradicts it, else one. A fork
/// on an option takes the greater of its branches.
pub(crate) struct Plain;

impl<K: Figure> Rule<K> for Plain {
    ghost way = { λ s q. plain_way K.ring (problem q) };

    fn literal(&self, query: &Query<K>, variable: u16, on: bool) -> K {
        let taken = query.table.has_option(variable) && !query.holds.denies(variable, on);
        query.literal(variable, on, taken)
    }

    fn join(&self, query: &Query<K>, variable: u16, on: K, off: K) -> K {
        query.join(variable, on, off)
    }

    ghost truth = { λ s q. refl };
}

impl<K: Figure> Query<'_, K> {
    /// The value of a fork: the greater of its branches' values for an option, for a chance their
    /// sum.
    pub(crate) fn join(&self, variable: u16, on: K, off: K) -> K
        ensures { result ≡ joined K.ring (roles self.now.table.now) variable on off }
    {
        if self.table.has_option(variable) {
            greater(on, off)
        } else {
            on.plus(off)
        }
    }

    /// Writes the values of the nodes, in order, into the first places of `work`.
    pub fn plain_pass(&self, work: &mut [K])
        requires room { length (circuit self.now.table.now) ≤ length work.old }
        ensures { work.new ≡ plains_left K.ring (problem self.now) work.old }
    {
        self.pass(&Plain, work);
    }
}
