//! The largest table.
use crate::checking::check_file;
use plants::files::file;
use std::alloc::{AllocError, Global};
use std::test::Fail;

// 20 options and 44 chances.
const ROLES: &str = "EEEEEEEEEEEEEEEEEEEERRRRRRRRRRRRRRRRRRRRRRRRRRRRRRRRRRRRRRRRRRRR";

// All nodes but the root, in their short form:
//   0            true
//   4v - 3       the on literal of the variable v, from 1 to 64
//   4v - 2       its off literal
//   4v - 1       the fork between the two
//   4v           an and of this fork and the node 4v - 4
//   257 to 4094  an and of the node before and twice node 0
fn rootless(heap: Global) -> Result<String, AllocError> {
    let mut nodes = String::from_str(heap, "T")?;
    for v in 1..65usize {
        let last = 4 * v - 4;
        let on = last + 1;
        let off = last + 2;
        let fork = last + 3;
        write!(nodes, "/L {v}/L -{v}/O {v} {on} {off}/A {last} {fork}")?;
    }
    for last in 256..4094usize {
        write!(nodes, "/A {last} 0 0")?;
    }
    Ok(nodes)
}

// The file with a root that has these first children, and so often node 0 behind them.
fn rooted(rootless: &str, first: &str, more: usize, heap: Global) -> Result<String, AllocError> {
    let rest = " 0".repeat(heap, more)?;
    let nodes = format!(in heap; "{rootless}/A{first}{rest}")?;
    file(ROLES, nodes.as_str(), heap)
}

/// The largest table: its root is an and of node 4094 and, 517 times, node 0.
pub(crate) fn large(heap: Global) -> Result<String, AllocError> {
    let rootless = rootless(heap)?;
    rooted(rootless.as_str(), " 4094", 517, heap)
}

// What its nodes mention.
fn large_sets(heap: Global) -> Result<Vec<u64>, AllocError> {
    let mut sets = vec![in heap; 0u64; 1]?;
    let mut all = 0u64;
    for v in 1..65u32 {
        let one = 1u64 << (v - 1);
        all |= one;
        sets.extend_from_slice(&[one, one, one, all])?;
    }
    sets.resize(4096, u64::MAX)?;
    Ok(sets)
}

#[test]
fn largest(rt: HostRuntime) -> Result<(), Fail> {
    let text = large(rt.alloc())?;
    assert!(rt; text.as_str().starts_with("G\t64\t4096\t12288\n"));
    let sets = large_sets(rt.alloc())?;
    check_file(
        &rt,
        text.as_str(),
        Ok(sets.as_slice()),
        rt.alloc(),
        &"the largest",
    )
}

// A refusal's number, the root's first children, and how many more it has.
const ROOTS: &[(u8, &str, usize)] = &[
    (8, " 4095", 517),
    (8, " 4096", 517),
    (8, " 65535", 517),
    (10, " 4094 4094", 516),
    (10, " 4094 1", 516),
    (10, " 254 4094", 516),
    (10, " 4094 3000", 516),
    (13, " 252", 517),
    (13, "", 518),
];

#[test]
fn largest_flawed(rt: HostRuntime) -> Result<(), Fail> {
    let rootless = rootless(rt.alloc())?;
    for (number, first, more) in ROOTS {
        let text = rooted(rootless.as_str(), *first, *more, rt.alloc())?;
        check_file(&rt, text.as_str(), Err((*number, 4095)), rt.alloc(), first)?;
    }
    Ok(())
}
