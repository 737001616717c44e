//! The counting pass: a value for every node, for the selection held.
ghost use Rattle.std.specs.Prelude.{◌≡◌, refl, ◌≤◌, length};
ghost use Rattle.table.specs.Whole.{circuit};
ghost use Rattle.passes.specs.Holding.{selected};
ghost use Rattle.passes.specs.Problem.{problem};
ghost use Rattle.passes.specs.Ways.{count_way};
ghost use Rattle.passes.specs.Written.{counts_left};

use crate::query::Query;
use crate::rule::Rule;
use kinds::figure::Figure;

/// A chance's literal counts its weight; an option's one if it is selected so, else zero. A fork
/// adds.
struct Counting;

impl<K: Figure> Rule<K> for Counting {
    ghost way = { λ s q. count_way K.ring (problem q) (selected q.holds.now.entries) };

    fn literal(&self, query: &Query<K>, variable: u16, on: bool) -> K {
        let taken = query.table.has_option(variable) && query.holds.is_on(variable) == on;
        query.literal(variable, on, taken)
    }

    fn join(&self, _query: &Query<K>, _variable: u16, on: K, off: K) -> K {
        on.plus(off)
    }

    ghost truth = { λ s q. refl };
}

impl<K: Figure> Query<'_, K> {
    /// Writes the values of the nodes, in order, into the first places of `work`.
    pub fn count_pass(&self, work: &mut [K])
        requires room { length (circuit self.now.table.now) ≤ length work.old }
        ensures { work.new ≡ counts_left K.ring (problem self.now) work.old }
    {
        self.pass(&Counting, work);
    }
}
