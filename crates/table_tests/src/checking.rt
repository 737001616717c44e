//! What the check makes of a file, and of parts.
use plants::reading::read;
use std::alloc::Global;
use std::fmt::Display;
use std::process::Abort;
use std::test::Fail;
use table::check::check as check_table;
use table::sets::Mentions;
use text::fault::{Layer, Refusal};
use text::record::{Node, Variables};

/// What the check should answer: the first nodes' sets of variables, or a refusal's number and place.
pub type Due<'a> = Result<&'a [u64], (u8, usize)>;

/// The file is read, and the check of its parts answers this.
pub(crate) fn check_file(
    rt: &impl Abort,
    file: &str,
    due: Due,
    heap: Global,
    case: &impl Display,
) -> Result<(), Fail> {
    let parts = read(file, heap)?;
    check_answer(
        rt,
        parts.nodes.as_slice(),
        parts.children.as_slice(),
        &parts.contents.variables,
        due,
        case,
    );
    Ok(())
}

/// The check of these parts, which may be no file's, answers this.
pub(crate) fn check_answer(
    rt: &impl Abort,
    nodes: &[Node],
    children: &[u16],
    variables: &Variables,
    due: Due,
    case: &impl Display,
) {
    match check_table(nodes, children, variables) {
        Ok(mentions) => {
            assert!(rt; due.is_ok(), "accepted: {case}");
            check_sets(rt, &mentions, due.unwrap_or(&[]), case)
        }
        Err(fault) => {
            let refusal = (fault.number(), fault.place());
            assert_eq!(rt; Some(refusal), due.err(), "{case}");
            assert_eq!(rt;
                matches!(fault.layer(), Layer::Table),
                refusal.0 >= 8,
                "{case}"
            );
        }
    }
}

/// The first nodes mention these sets, and behind them are empty ones.
fn check_sets(rt: &impl Abort, mentions: &Mentions, due: &[u64], case: &impl Display) {
    for (i, set) in mentions.sets.iter().enumerate() {
        let wanted = due.get(i).copied().unwrap_or(0);
        assert_eq!(rt; *set, wanted, "node {i}: {case}");
    }
}
