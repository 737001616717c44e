//! What branch and bound finds.
ghost use Rattle.std.specs.Prelude.{◌≡◌};
ghost use Rattle.search.specs.Select.{best_figure, beats, offered};

use kinds::figure::Figure;
use passes::holds::Holds;

/// A selection, with its figure: every option is held.
#[derive(Clone, Copy, Debug, PartialEq, Eq)]
pub struct Selection<K> {
    pub holds: Holds,
    pub figure: K,
}

/// The best selection, if one ranks above zero, and how many branches were opened.
#[derive(Clone, Copy, Debug, PartialEq, Eq)]
pub struct Found<K> {
    pub best: Option<Selection<K>>,
    pub openings: u64,
}

impl<K: Figure> Found<K> {
    /// The figure that a branch has to beat.
    pub(crate) fn figure_to_beat(&self) -> K
        ensures { result ≡ best_figure K.ring self.now.best }
    {
        self.best.map_or(K::zero(), |selection| selection.figure)
    }

    /// Takes a selection that ranks above the best so far.
    pub(crate) fn offer(&mut self, holds: &Holds, figure: K)
        ensures { self.new ≡ offered (beats K.ring figure self.old.best) holds.now.entries figure self.old }
    {
        if !figure.no_higher(self.figure_to_beat()) {
            self.best = Some(Selection {
                holds: *holds,
                figure,
            });
        }
    }
}
