//! Weight texts.
use crate::shown::{show_fault, show_figures};
use crate::steps::MARK;
use kinds::peak::Peak;
use kinds::written::Written;
use parts::stores::Parts;
use passes::sheet::Sheet;
use plants::files::PLANT;
use plants::reading::{read, table_of};
use search::weights::read_weights;
use std::alloc::Global;
use std::process::Abort;
use std::test::Fail;

// A text, what its reader answers, and the sheet afterwards.
type Case = (&'static str, &'static str, &'static str);

// On a sheet of six.
const TALLIES: &[Case] = &[
    ("", "done", "1 1 1 1 901 901 "),
    ("W\t2\t3\t7\n", "done", "1 1 3 7 901 901 "),
    (
        "W\t2\t0\t18446744073709551615\n",
        "done",
        "1 1 0 18446744073709551615 901 901 ",
    ),
    ("W\t2\t3\t7\nW\t2\t5\t0\n", "done", "1 1 5 0 901 901 "),
    // refused at the first line
    ("W\t2\t3\t7", "text 2 at 1", "1 1 1 1 901 901 "),
    ("\n", "text 2 at 1", "1 1 1 1 901 901 "),
    ("W\t2\t3\n", "text 2 at 1", "1 1 1 1 901 901 "),
    ("W\t2\t3\t7\t\n", "text 2 at 1", "1 1 1 1 901 901 "),
    ("w\t2\t3\t7\n", "text 2 at 1", "1 1 1 1 901 901 "),
    ("W\t2\t3\t7\r\n", "text 2 at 1", "1 1 1 1 901 901 "),
    ("W\t02\t3\t7\n", "text 3 at 1", "1 1 1 1 901 901 "),
    ("W\t65536\t3\t7\n", "text 3 at 1", "1 1 1 1 901 901 "),
    ("W\t2\t\t7\n", "text 3 at 1", "1 1 1 1 901 901 "),
    ("W\t2\t-\t7\n", "text 3 at 1", "1 1 1 1 901 901 "),
    (
        "W\t2\t3\t18446744073709551616\n",
        "text 3 at 1",
        "1 1 1 1 901 901 ",
    ),
    ("W\t0\t3\t7\n", "study 17 at 1", "1 1 1 1 901 901 "),
    ("W\t1\t3\t7\n", "study 17 at 1", "1 1 1 1 901 901 "),
    ("W\t3\t3\t7\n", "study 17 at 1", "1 1 1 1 901 901 "),
    ("W\t65535\t3\t7\n", "study 17 at 1", "1 1 1 1 901 901 "),
    // the lowest number that fits
    ("W\t1\tx\n", "text 2 at 1", "1 1 1 1 901 901 "),
    ("W\t1\t3\tx\n", "text 3 at 1", "1 1 1 1 901 901 "),
    ("W\t1\tx\t7", "text 2 at 1", "1 1 1 1 901 901 "),
    // refused in the middle
    (
        "W\t2\t3\t7\nW\t2\t5\nW\t2\t8\t9\n",
        "text 2 at 2",
        "1 1 3 7 901 901 ",
    ),
    (
        "W\t2\t3\t7\nW\t2\t8\t07\nW\t2\t8\t9\n",
        "text 3 at 2",
        "1 1 3 7 901 901 ",
    ),
    (
        "W\t2\t3\t7\nW\t2\t4\t5\nW\t1\t8\t9\nW\n",
        "study 17 at 3",
        "1 1 4 5 901 901 ",
    ),
    ("W\t2\t3\t7\nW\t2\t8\t9", "text 2 at 2", "1 1 3 7 901 901 "),
];

// On a sheet of three.
const SHORT: &[Case] = &[
    ("", "study 14 at 0", "901 901 901 "),
    ("W\t2\t3\t7\n", "study 14 at 0", "901 901 901 "),
    ("W\t2", "study 14 at 0", "901 901 901 "),
];

// On a sheet of four: one is a load of 0.
const PEAKS: &[Case] = &[
    ("", "done", "0 0 0 0 "),
    ("W\t2\t-\t4000\n", "done", "0 0 - 4000 "),
    ("W\t2\t3\t4294967296\n", "text 3 at 1", "0 0 0 0 "),
];

// A text on a sheet of these figures.
fn check_text<K: Written>(
    rt: &impl Abort,
    plant: &Parts,
    figures: &mut [K],
    entry: Case,
    heap: Global,
    case: &str,
) -> Result<(), Fail> {
    let table = table_of(plant, &case)?;
    let (text, due, sheet) = entry;
    let answer = match read_weights(&table, &mut Sheet { figures }, text.as_bytes()) {
        Ok(_) => String::from_str(heap, "done")?,
        Err(fault) => show_fault(fault, heap)?,
    };
    assert_eq!(rt; answer.as_str(), due, "{text}: {case}");
    let after = show_figures(figures, heap)?;
    assert_eq!(rt; after.as_str(), sheet, "{text}: {case}");
    Ok(())
}

#[test]
fn texts(rt: HostRuntime) -> Result<(), Fail> {
    let heap = rt.alloc();
    let plant = read(PLANT, heap)?;
    for case in TALLIES {
        check_text(&rt, &plant, &mut [MARK; 6], *case, heap, "tallies")?;
    }
    for case in SHORT {
        check_text(&rt, &plant, &mut [MARK; 3], *case, heap, "short")?;
    }
    for case in PEAKS {
        check_text(
            &rt,
            &plant,
            &mut [Peak::Impossible; 4],
            *case,
            heap,
            "peaks",
        )?;
    }
    Ok(())
}
