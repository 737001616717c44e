//! The figure of the selection held.
ghost use Rattle.std.specs.Prelude.{◌≡◌, ◌-◌, ◌<◌, ◌≤◌, length, slice_index_or};
ghost use Rattle.table.specs.Whole.{circuit};
ghost use Rattle.passes.specs.Bounding.{CountsFigure};
ghost use Rattle.passes.specs.Problem.{problem, held_figure};
ghost use Rattle.passes.specs.Written.{counts_left};

use crate::query::Query;
use kinds::figure::Figure;

impl<K: Figure> Query<'_, K> {
    /// Counts the selection held, with every free option off: the sum, over all scenarios that make
    /// the root true, of the product of their weights.
    pub fn count_figure(&self, work: &mut [K]) -> K
        requires room { length (circuit self.now.table.now) ≤ length work.old }
        ensures answer { result ≡ held_figure K.ring (problem self.now) }
        ensures counts { CountsFigure K.ring (problem self.now) }
        ensures work { work.new ≡ counts_left K.ring (problem self.now) work.old }
    {
        self.count_pass(work);
        last_of(work, self.table.nodes.len())
    }
}

/// The last of the first `count` figures.
pub(crate) fn last_of<K: Figure>(figures: &[K], count: usize) -> K
    requires { (0 < count) × (count ≤ length figures.now) }
    ensures { result ≡ slice_index_or figures.now (count - 1) K.ring.zero }
{
    figures[count - 1]
}
