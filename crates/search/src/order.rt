//! Branching orders: which free option select branches on next.
ghost use Rattle.std.specs.Prelude.{◌≡◌, ℕ, ◌<◌, true, List, length};
ghost use Rattle.std.specs.List.{list_all};
ghost use Rattle.search.specs.Orders.{Lean, Lawful, rising, options_of, told, placed};

use crate::choice::Choice;
use kinds::figure::Figure;

/// An order names one of the free options that it is told of.
pub trait BranchingOrder<K: Figure> {
    ghost picks: { Self → List (Lean K) → ℕ };

    /// The option to branch on, of the free ones by rising number. `part` is the root's part of
    /// the work table.
    fn pick(&self, free: &[Choice], part: &[K]) -> u16
        requires some { 0 < length free.now }
        requires rising { rising (options_of free.now) ≡ true }
        requires placed { list_all (placed (length part.now)) free.now ≡ true }
        ensures { result ≡ picks self.now (told K.ring part.now free.now) };

    ghost names: { (s : Self) → Lawful (picks s) };
}
