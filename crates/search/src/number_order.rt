//! Number order: branch on the free option with the lowest number.
ghost use Rattle.search.specs.Orders.{LowestAnswers, lowest};
ghost use Rattle.search.specs.Lawful.{lawful_lowest};

use crate::choice::Choice;
use crate::order::BranchingOrder;
use kinds::figure::Figure;

/// The first of the free options.
#[derive(Clone, Copy)]
pub struct NumberOrder;

impl<K: Figure> BranchingOrder<K> for NumberOrder {
    ghost picks = { λ _ ls. lowest ls };

    ghost names = { λ s. lawful_lowest };

    fn pick(&self, free: &[Choice], _part: &[K]) -> u16 {
        free[0].option
    }
}

/// The order that names the lowest number of those that it is told of.
pub fn number_order<K: Figure>() -> NumberOrder
    ensures { LowestAnswers K }
{
    NumberOrder
}
