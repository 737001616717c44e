//! What the program prints.
ghost use Rattle.calls.specs.Calls.{calls_report, sizes_of, calls as calls_of};
ghost use Rattle.report.specs.Stops.{Spells};

use crate::lines::setup_line;
use crate::read::read_calls;
use crate::script::Malformed;
use crate::setup::{Kind, Order, Setup};
use kinds::peak::Peak;
use kinds::tally::Tally;
use kinds::written::Written;
use report::day::{Sizes, day_report};
use search::number_order::NumberOrder;
use search::order::BranchingOrder;
use search::strongest_lean::StrongestLean;
use std::alloc::{AllocError, Global};
use text::fields::first_line;

/// What is printed for a script, with a file behind it: the answer to each call, or the first
/// line that has not its form, or the first refusal.
pub fn calls(heap: Global, input: &[u8]) -> Result<String, AllocError>
    ensures { Spells (calls_of input.now) result }
{
    let malformed = Malformed { line: 1 };
    let Some(line) = first_line(input) else {
        return malformed.to_string(heap);
    };
    let Some(setup) = setup_line(line) else {
        return malformed.to_string(heap);
    };
    let text = &input[line.len() + 1..];
    match (setup.kind, setup.order) {
        (Kind::Tally, Order::Number) => set_up::<Tally, NumberOrder>(
            heap,
            &NumberOrder,
            setup,
            text,
        ),
        (Kind::Tally, Order::Lean) => set_up::<Tally, StrongestLean>(
            heap,
            &StrongestLean,
            setup,
            text,
        ),
        (Kind::Peak, Order::Number) => set_up::<Peak, NumberOrder>(heap, &NumberOrder, setup, text),
        (Kind::Peak, Order::Lean) => set_up::<Peak, StrongestLean>(
            heap,
            &StrongestLean,
            setup,
            text,
        ),
    }
}

/// What is printed for the calls and the file.
fn set_up<K: Written, O: BranchingOrder<K>>(
    heap: Global,
    order: &O,
    setup: Setup,
    text: &[u8],
) -> Result<String, AllocError>
    ensures { Spells (calls_report K.ring K.notation (O.picks order.now) (sizes_of setup) text.now) result }
{
    let sizes = Sizes {
        sheet: usize::from(setup.sheet),
        work: usize::from(setup.work),
    };
    match read_calls::<K>(heap, text)? {
        Ok(script) => day_report::<K, O>(heap, order, sizes, script.file, &script.calls),
        Err(malformed) => malformed.to_string(heap),
    }
}
