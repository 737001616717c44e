//! Strongest lean: branch on the free option whose weaker value at the root ranks lowest.
ghost use Rattle.std.specs.Prelude.{◌≡◌, true, length};
ghost use Rattle.search.specs.Orders.{StrongestAnswers, strongest, weaker as weaker_of, stronger as stronger_of, lean_at, placed};
ghost use Rattle.search.specs.Lawful.{lawful_strongest};

use crate::choice::Choice;
use crate::order::BranchingOrder;
use kinds::figure::{Figure, lesser};

/// Of the free options that the root mentions the first whose weaker value ranks lowest; the first
/// of all if the root mentions none.
#[derive(Clone, Copy)]
pub struct StrongestLean;

/// The lesser of an option's two values.
fn weaker<K: Figure>(part: &[K], choice: Choice) -> K
    requires { placed (length part.now) choice ≡ true }
    ensures { result ≡ weaker_of K.ring (lean_at K.ring part.now choice) }
{
    lesser(part[choice.place], part[choice.place + 1])
}

/// Of two choices the first, or the second if its weaker value ranks lower.
fn stronger<K: Figure>(part: &[K], best: Choice, choice: Choice) -> Choice
    requires best { placed (length part.now) best ≡ true }
    requires choice { placed (length part.now) choice ≡ true }
    ensures { result ≡ stronger_of K.ring part.now best choice }
{
    if weaker(part, best).no_higher(weaker(part, choice)) {
        best
    } else {
        choice
    }
}

impl<K: Figure> BranchingOrder<K> for StrongestLean {
    ghost picks = { λ _ ls. strongest K.ring ls };

    ghost names = { λ s. lawful_strongest K.ring };

    fn pick(&self, free: &[Choice], part: &[K]) -> u16 {
        free.iter()
            .copied()
            .filter(|choice| choice.mentioned)
            .reduce(|best, choice| stronger(part, best, choice))
            .unwrap_or(free[0])
            .option
    }
}

/// The order that names the strongest lean of those that it is told of.
pub fn strongest_lean<K: Figure>() -> StrongestLean
    ensures { StrongestAnswers K.ring }
{
    StrongestLean
}
