//! Working days on plant K.
use crate::shown::{show_answer, show_figures, show_holds};
use crate::spoken::call_of;
use crate::steps::{MARK, Step};
use kinds::tally::Tally;
use kinds::written::Written;
use parts::stores::Parts;
use passes::sheet::Sheet;
use plants::files::PLANT;
use plants::reading::{read, table_of};
use search::call::{Call, Reply};
use search::day::work_day;
use search::fault::Fault;
use search::number_order::NumberOrder;
use search::order::BranchingOrder;
use search::strongest_lean::StrongestLean;
use std::alloc::Global;
use std::fmt::Display;
use std::process::Abort;
use std::test::Fail;

const DAY: &[Step] = &[
    ("figure", "study 20 at 0"),
    ("hold 2 on", "study 16 at 2"),
    ("weigh 2 3 7", "done"),
    ("release 1", "study 19 at 1"),
    ("bound", "7"),
    ("trial 1 off", "3"),
    ("select", "7 by +1, 3 opened"),
    ("hold 1 off", "done"),
    ("hold 1 on", "study 18 at 1"),
    ("figure", "3"),
    ("trial 1 on", "study 18 at 1"),
    ("bound", "3"),
    ("weigh 1 5 5", "study 17 at 1"),
    ("weigh 2 0 8", "done"),
    ("select", "none, 1 opened"),
    ("release 1", "done"),
    ("release 1", "study 19 at 1"),
    ("select", "8 by +1, 3 opened"),
    ("hold 1 on", "done"),
    ("figure", "8"),
];

// Places for answers, and the holds and the weights of the hot day at the end.
const ENDS: &[(usize, &str, &str)] = &[
    (20, "+1", "0 8 "),
    (23, "+1", "0 8 "),
    (0, "", "901 901 "),
    (2, "", "901 901 "),
    (3, "", "3 7 "),
    (8, "-1", "3 7 "),
    (15, "-1", "0 8 "),
    (18, "", "0 8 "),
];

fn calls_of(steps: &[Step], heap: Global, case: &impl Display) -> Result<Vec<Call<Tally>>, Fail> {
    steps
        .iter()
        .map(|(spoken, _)| call_of(*spoken).ok_or_else(|| Fail::new(format_args!(
            "no call: {case}"
        ))))
        .try_collect(heap)
}

// Answers stand in the first places; behind the day's calls the mark stays.
fn check_answers(
    rt: &impl Abort,
    answers: &[Result<Reply<Tally>, Fault>],
    heap: Global,
    case: &impl Display,
) -> Result<(), Fail> {
    for (i, answer) in answers.iter().enumerate() {
        let due = DAY.get(i).map_or("901", |step| step.1);
        let shown = show_answer(*answer, heap)?;
        assert_eq!(rt; shown.as_str(), due, "call {i}: {case}");
    }
    Ok(())
}

// The day with so many places for answers.
fn check_day<O: BranchingOrder<Tally>>(
    rt: &impl Abort,
    plant: &Parts,
    order: &O,
    end: (usize, &str, &str),
    heap: Global,
    case: &impl Display,
) -> Result<(), Fail> {
    let table = table_of(plant, case)?;
    let (places, held, weights) = end;
    let calls = calls_of(DAY, heap, case)?;
    let mut answers = vec![in heap; Ok(Reply::Value(MARK)); places]?;
    let mut figures = [MARK; 4];
    let mut work = [MARK; 21];
    let holds = work_day(
        &table,
        order,
        &mut Sheet {
            figures: &mut figures,
        },
        &mut work,
        calls.as_slice(),
        answers.as_mut_slice(),
    );
    check_answers(rt, answers.as_slice(), heap, case)?;
    let shown = show_holds(&holds, heap)?;
    assert_eq!(rt; shown.as_str(), held, "holds: {case}");
    let sheet = show_figures(&figures, heap)?;
    let due = format!(in heap; "901 901 {weights}")?;
    assert_eq!(rt; sheet.as_str(), due.as_str(), "sheet: {case}");
    Ok(())
}

#[test]
fn days(rt: HostRuntime) -> Result<(), Fail> {
    let heap = rt.alloc();
    let plant = read(PLANT, heap)?;
    for end in ENDS {
        check_day(
            &rt,
            &plant,
            &NumberOrder,
            *end,
            heap,
            &format_args!("{} places", end.0),
        )?;
    }
    check_day(
        &rt,
        &plant,
        &StrongestLean,
        (20, "+1", "0 8 "),
        heap,
        &"strongest lean",
    )
}
