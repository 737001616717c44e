//! What the program prints.
ghost use Rattle.quote.specs.Quote.{quote as quote_of};
ghost use Rattle.report.specs.Stops.{Spells};

use kinds::tally::Tally;
use report::plant::plant_report;
use search::number_order::NumberOrder;
use std::alloc::{AllocError, Global};

/// What is printed for a file: the plant's bound and its best selection, in tallies and by number
/// order, or the first refusal.
pub fn quote(heap: Global, file: &[u8]) -> Result<String, AllocError>
    ensures { Spells (quote_of file.now) result }
{
    plant_report::<Tally, NumberOrder>(heap, &NumberOrder, file)
}
