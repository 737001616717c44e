//! What a pass is asked.
ghost use Rattle.std.specs.Prelude.{◌≡◌, ◌*◌, ◌≤◌, true, length};
ghost use Rattle.table.specs.Count.{weight};
ghost use Rattle.table.specs.Sound.{known};
ghost use Rattle.table.specs.Whole.{roles};

use crate::holds::Holds;
use crate::sheet::weight_of;
use kinds::figure::Figure;
use table::table::Table;

/// A query of a checked table: two figures for each of its variables, and the holds.
#[derive(Drop)]
pub struct Query<'a, K> {
    pub table: &'a Table<'a>,
    pub sheet: &'a [K],
    pub holds: &'a Holds,
    ghost fits: { 2 * length (roles table.now) ≤ length sheet.now },
}

impl<K: Figure> Query<'_, K> {
    ghost use Rattle.passes.specs.Problem.{problem};
    ghost use Rattle.passes.specs.Ways.{literal_value};

    /// A variable's on (or off) weight.
    pub(crate) fn weight(&self, variable: u16, on: bool) -> K
        requires { known (length (roles self.now.table.now)) variable ≡ true }
        ensures { result ≡ weight K.ring self.now.sheet.now variable on }
    {
        weight_of(self.sheet, variable, on)
    }

    /// What a literal counts: a chance's its weight, an option's one if it is taken, else zero.
    pub(crate) fn literal(&self, variable: u16, on: bool, taken: bool) -> K
        requires { known (length (roles self.now.table.now)) variable ≡ true }
        ensures { result ≡ literal_value K.ring (problem self.now) variable on taken }
    {
        if !self.table.has_option(variable) {
            self.weight(variable, on)
        } else if taken {
            K::one()
        } else {
            K::zero()
        }
    }
}
