//! A working day: a list of calls on one new study.
ghost use Rattle.std.specs.Prelude.{◌≡◌, length, drop};
ghost use Rattle.search.specs.Calls.{BehindKept};
ghost use Rattle.search.specs.Day.{NewDay, DaysAgree, NoStrays, fixed_parts, book_of, answer, after};

use crate::asking::{bound, figure, select};
use crate::call::{Call, Reply};
use crate::fault::Fault;
use crate::order::BranchingOrder;
use crate::study::{hold, release, weigh};
use crate::trial::trial;
use kinds::figure::Figure;
use passes::holds::Holds;
use passes::sheet::Sheet;
use table::table::Table;

/// Answers one call.
pub fn ask<K: Figure, O: BranchingOrder<K>>(
    table: &Table,
    order: &O,
    holds: &mut Holds,
    sheet: &mut Sheet<K>,
    work: &mut [K],
    call: &Call<K>,
) -> Result<Reply<K>, Fault>
    ensures answer { let s = fixed_parts table.now (O.picks order.now) work.old in
        result ≡ answer K.ring s (book_of sheet.old holds.old) call.now }
    ensures holds { let s = fixed_parts table.now (O.picks order.now) work.old in
        holds.new.entries ≡ (after K.ring s (book_of sheet.old holds.old) call.now).holds }
    ensures work { BehindKept table.now work.old work.new }
    ensures same { sheet.new.figures.ghost_name ≡ sheet.old.figures.ghost_name }
    ensures sheet { let s = fixed_parts table.now (O.picks order.now) work.old in
        sheet.new.figures.now ≡ (after K.ring s (book_of sheet.old holds.old) call.now).sheet }
{
    match *call {
        Call::Hold { variable, on } => hold(table, holds, variable, on).map(|_| Reply::Done),
        Call::Release { variable } => release(table, holds, variable).map(|_| Reply::Done),
        Call::Weigh { variable, on, off } => weigh(table, holds, sheet, variable, on, off).map(
            |_| Reply::Done,
        ),
        Call::Trial { variable, on } => trial(table, holds, sheet, work, variable, on).map(
            Reply::Value,
        ),
        Call::Figure => figure(table, holds, sheet, work).map(Reply::Value),
        Call::Bound => bound(table, holds, sheet, work).map(Reply::Value),
        Call::Select => select(table, holds, sheet, work, order).map(Reply::Chosen),
    }
}

/// Runs a working day: answers the calls in order on a new study, as many as there are places for
/// answers. Gives the holds at the end of the day.
pub fn work_day<K: Figure, O: BranchingOrder<K>>(
    table: &Table,
    order: &O,
    sheet: &mut Sheet<K>,
    work: &mut [K],
    calls: &[Call<K>],
    answers: &mut [Result<Reply<K>, Fault>],
) -> Holds
    ensures day { let s = fixed_parts table.now (O.picks order.now) work.old in
        NewDay K.ring s sheet.old.figures.now calls.now answers.new (book_of sheet.new result) }
    ensures only { DaysAgree K.ring (fixed_parts table.now (O.picks order.now) work.old) }
    ensures own { NoStrays K.ring (fixed_parts table.now (O.picks order.now) work.old) }
    ensures behind { drop (length calls.now) answers.new ≡ drop (length calls.now) answers.old }
    ensures work { BehindKept table.now work.old work.new }
    ensures same { sheet.new.figures.ghost_name ≡ sheet.old.figures.ghost_name }
{
    let mut holds = Holds::new();
    let count = calls.len().min(answers.len());
    // By place: of what is written through `zip` and `iter_mut` a proof knows the length alone.
    for (i, call) in calls[..count].iter().enumerate() {
        answers[i] = ask(table, order, &mut holds, sheet, work, call);
    }
    holds
}
