//! Bounds on what the selections that keep the holds can reach.
ghost use Rattle.std.specs.Prelude.{◌≡◌, ◌≤◌, length};
ghost use Rattle.table.specs.Whole.{circuit, roles};
ghost use Rattle.passes.specs.Bounding.{Bounded, Meets, PlainWhereHeld};
ghost use Rattle.passes.specs.Holding.{Entries};
ghost use Rattle.passes.specs.Passes.{plain_bound as plain_bound_of};
ghost use Rattle.passes.specs.Places.{pair_places};
ghost use Rattle.passes.specs.Problem.{problem, under_holds};
ghost use Rattle.passes.specs.Written.{plains_left, pairs_left};

use crate::figure::last_of;
use crate::places::stride;
use crate::query::Query;
use crate::values::NodeValues;
use kinds::figure::Figure;

impl<K: Figure> Query<'_, K> {
    /// The plain bound: the root's value in the plain pass.
    pub fn plain_bound(&self, work: &mut [K]) -> K
        requires room { length (circuit self.now.table.now) ≤ length work.old }
        ensures answer { result ≡ plain_bound_of K.ring (problem self.now) }
        ensures work { work.new ≡ plains_left K.ring (problem self.now) work.old }
    {
        self.plain_pass(work);
        last_of(work, self.table.nodes.len())
    }

    /// The bound: the root's value in the pair pass.
    pub fn pair_bound(&self, work: &mut [K]) -> K
        requires room { pair_places (roles self.now.table.now) (circuit self.now.table.now) ≤ length work.old }
        ensures bounded { Bounded K.ring (problem self.now) result }
        ensures meets { Meets K.ring (problem self.now) result }
        ensures held { (h : Entries) → PlainWhereHeld K.ring (under_holds (problem self.now) h) }
        ensures work { work.new ≡ pairs_left K.ring (problem self.now) work.old }
    {
        self.pair_pass(work);
        let root = self.table.nodes.len() - 1;
        NodeValues {
            places: work,
            stride: stride(self.table),
        }
        .value(root as u16)
    }
}
