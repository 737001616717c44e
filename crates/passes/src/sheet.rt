//! The sheet: an on and an off weight for each variable.
ghost use Rattle.std.specs.Prelude.{◌≡◌, ◌*◌, ◌<◌, ◌≤◌, length};
ghost use Rattle.table.specs.Count.{place, weight, weighed};

use kinds::figure::Figure;

/// How many figures the largest sheet has: two for each of 64 variables.
pub const LARGEST_SHEET: usize = 128;

/// Where a variable's on (or off) weight stands.
pub(crate) fn place_of(variable: u16, on: bool) -> usize
    requires { 0 < variable }
    ensures { result ≡ place variable on }
{
    let after = 2 * variable as usize;
    if on { after - 2 } else { after - 1 }
}

/// A variable's on (or off) weight, from the figures of a sheet.
pub(crate) fn weight_of<K: Figure>(figures: &[K], variable: u16, on: bool) -> K
    requires { (0 < variable) × (2 * variable ≤ length figures.now) }
    ensures { result ≡ weight K.ring figures.now variable on }
{
    figures[place_of(variable, on)]
}

/// A caller's store of figures. Counted from 0, place 2i - 2 is the on weight of variable i, and
/// place 2i - 1 its off weight.
#[derive(Drop)]
pub struct Sheet<'a, K> {
    pub figures: &'a mut [K],
}

impl<K: Figure> Sheet<'_, K> {
    /// Writes a variable's two weights.
    pub fn weigh(&mut self, variable: u16, on: K, off: K)
        requires { (0 < variable) × (2 * variable ≤ length self.old.figures.now) }
        ensures same { self.new.figures.ghost_name ≡ self.old.figures.ghost_name }
        ensures after { self.new.figures.now ≡ weighed self.old.figures.now variable on off }
    {
        self.figures[place_of(variable, true)] = on;
        self.figures[place_of(variable, false)] = off;
    }

    /// A variable's on (or off) weight.
    pub fn lookup(&self, variable: u16, on: bool) -> K
        requires { (0 < variable) × (2 * variable ≤ length self.now.figures.now) }
        ensures { result ≡ weight K.ring self.now.figures.now variable on }
    {
        weight_of(self.figures, variable, on)
    }
}
