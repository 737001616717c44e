//! Figures and bounds worked out by hand.
use crate::asking::{ask, holds_of, read};
use kinds::peak::{Load, Peak};
use kinds::tally::Tally;
use parts::stores::Parts;
use plants::files::{PLANT, file};
use std::alloc::Global;
use std::iter;
use std::process::Abort;
use std::test::Fail;

/// What no pass writes: it stands in an option's places on a sheet, and behind a work table.
pub const MARK: u64 = 901;

/// Holds, and the figure, the plain bound and the bound.
pub type Due = (&'static str, u64, u64, u64);

/// The tallies of these numbers.
pub(crate) fn tallies(counts: &[u64], heap: Global) -> Result<Vec<Tally>, Fail> {
    Ok(counts.iter().map(|&count| Tally { count }).collect(heap)?)
}

/// The passes answer this on this sheet of tallies.
pub(crate) fn check_tallies(
    rt: &impl Abort,
    parts: &Parts,
    sheet: &[u64],
    due: &Due,
    heap: Global,
) -> Result<Vec<Tally>, Fail> {
    let (letters, figure, plain, bound) = due;
    let figures = tallies(sheet, heap)?;
    let mut work = vec![in heap; Tally { count: MARK }; 512]?;
    let answers = ask(
        parts,
        figures.as_slice(),
        &holds_of(*letters),
        work.as_mut_slice(),
    )?;
    assert_eq!(rt;
        (
            answers.figure.count,
            answers.plain.count,
            answers.bound.count,
        ),
        (*figure, *plain, *bound),
        "holds {}",
        *letters
    );
    Ok(work)
}

const HOT_DAY: &[u64] = &[MARK, MARK, 3, 7];

const EVEN_DAY: &[u64] = &[MARK, MARK, 5, 5];

const HOT_DAY_DUE: &[Due] = &[("-", 3, 10, 7), ("1", 7, 7, 7), ("0", 3, 3, 3)];

const EVEN_DAY_DUE: &[Due] = &[("-", 5, 10, 5), ("1", 5, 5, 5), ("0", 5, 5, 5)];

// A value, an on and an off value for each of the seven nodes.
const HOT_DAY_WORK: &[&[u64]] = &[
    &[3, 0, 0],
    &[1, 0, 1],
    &[3, 0, 3],
    &[7, 0, 0],
    &[1, 1, 0],
    &[7, 7, 0],
    &[7, 7, 3],
];

#[test]
fn plant(rt: HostRuntime) -> Result<(), Fail> {
    let parts = read(PLANT, rt.alloc())?;
    for due in HOT_DAY_DUE {
        check_tallies(&rt, &parts, HOT_DAY, due, rt.alloc())?;
    }
    for due in EVEN_DAY_DUE {
        check_tallies(&rt, &parts, EVEN_DAY, due, rt.alloc())?;
    }
    let work = check_tallies(&rt, &parts, HOT_DAY, &("-", 3, 10, 7), rt.alloc())?;
    // behind what the passes write the marks stay
    let written = HOT_DAY_WORK.iter().flat_map(|part| part.iter().copied());
    for (i, (figure, due)) in work
        .iter()
        .zip(written.chain(iter::repeat(MARK)))
        .enumerate()
    {
        assert_eq!(rt; figure.count, due, "place {i}");
    }
    Ok(())
}

// Holds, and the load that all three answers are.
const LOADS: &[(&str, u32)] = &[("-", 9000), ("1", 4000), ("0", 9000)];

#[test]
fn loads(rt: HostRuntime) -> Result<(), Fail> {
    let parts = read(PLANT, rt.alloc())?;
    let none = Peak::Impossible;
    let hot = Peak::Load(Load { watts: 9000 });
    let mild = Peak::Load(Load { watts: 4000 });
    for (letters, due) in LOADS {
        let mut work = [none; 21];
        let answers = ask(
            &parts,
            &[none, none, hot, mild],
            &holds_of(*letters),
            &mut work,
        )?;
        for peak in [answers.figure, answers.plain, answers.bound] {
            assert_eq!(rt;
                peak,
                Peak::Load(Load { watts: *due }),
                "holds {}",
                *letters
            );
        }
    }
    Ok(())
}

// 2 to the power of 63, and the highest tally.
const HALF: u64 = 9_223_372_036_854_775_808;

const CAP: u64 = 18_446_744_073_709_551_615;

const CAPPED: Due = ("-", CAP, CAP, CAP);

#[test]
fn capped(rt: HostRuntime) -> Result<(), Fail> {
    let text = file("R", "L 1/L -1/O 1 0 1", rt.alloc())?;
    let parts = read(text.as_str(), rt.alloc())?;
    check_tallies(
        &rt,
        &parts,
        &[HALF, 9_223_372_036_854_775_807],
        &CAPPED,
        rt.alloc(),
    )?;
    check_tallies(&rt, &parts, &[HALF, HALF], &CAPPED, rt.alloc())?;
    Ok(())
}
