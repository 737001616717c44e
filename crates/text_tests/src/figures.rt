//! Tallies and peaks as text, at their edges.
use kinds::peak::Peak;
use kinds::tally::Tally;
use kinds::written::Written;
use std::alloc::{AllocError, Global};
use std::process::Abort;
use std::test::Fail;
use text::fault::Reason;

// Whether `text` is read as a figure, and the figure written as `text` again.
fn comes_back<W: Written>(text: &str, heap: Global) -> Result<bool, AllocError> {
    let Ok(figure) = W::read(text.as_bytes()) else {
        return Ok(false);
    };
    let again = figure.write(heap)?;
    Ok(again.as_str() == text)
}

fn check_texts<W: Written>(
    rt: &impl Abort,
    sound: &[&str],
    spoiled: &[&str],
    heap: Global,
) -> Result<(), Fail> {
    for text in sound {
        assert!(rt; comes_back::<W>(*text, heap)?, "{text}");
    }
    for text in spoiled {
        assert_eq!(rt;
            W::read(text.as_bytes()).err(),
            Some(Reason::Number),
            "{text}"
        );
    }
    Ok(())
}

const TALLIES: &[&str] = &["0", "7", "10", "18446744073709551615"];

const NO_TALLIES: &[&str] = &[
    "",
    "-",
    "00",
    "01",
    "+1",
    "18446744073709551616",
    "100000000000000000000",
];

#[test]
fn tallies_as_text(rt: HostRuntime) -> Result<(), Fail> {
    check_texts::<Tally>(&rt, TALLIES, NO_TALLIES, rt.alloc())
}

const PEAKS: &[&str] = &["-", "0", "7", "10", "4294967295"];

const NO_PEAKS: &[&str] = &[
    "",
    "--",
    "-0",
    "00",
    "01",
    "+1",
    "4294967296",
    "10000000000",
];

#[test]
fn peaks_as_text(rt: HostRuntime) -> Result<(), Fail> {
    check_texts::<Peak>(&rt, PEAKS, NO_PEAKS, rt.alloc())
}
