//! The answers against all worlds, one by one.
use crate::asking::{ask, read};
use crate::figures::{Due, MARK, check_tallies, tallies};
use kinds::tally::Tally;
use parts::stores::Parts;
use passes::holds::{Entry, Holds};
use plants::files::{BLOCK_ROLES, BLOCKS, file};
use std::alloc::Global;
use std::test::Fail;
use text::record::{Form, Node};

// The sheet: for each variable, by rising number, its on and its off weight. No pass reads those of
// the options.
const WEIGHTS: &[u64] = &[99, 99, 99, 99, 99, 99, 99, 99, 3, 7, 2, 5, 11, 4, 6, 13];

// By hand. The first block reaches 21 with both options off, 56 with 2 alone on, and 14 with 1 on;
// the second 24 with both off, 90 with 3 alone on, 195 with 4 alone on, and 118 with both on.
const BY_HAND: &[Due] = &[
    ("----", 504, 15960, 10920),
    ("1--0", 336, 1260, 1260),
    ("-01-", 1890, 4970, 2478),
];

// Whether a variable is on in a world: the lowest bit is that of variable 1.
fn is_on(world: u64, variable: u16) -> bool {
    world.wrapping_shr(u32::from(variable.wrapping_sub(1))) % 2 == 1
}

// How many of a node's children are true.
fn count_true(node: &Node, children: &[u16], truths: &[bool]) -> usize {
    children
        .iter()
        .skip(node.first as usize)
        .take(node.count as usize)
        .filter(|child| truths.get(**child as usize) == Some(&true))
        .count()
}

// Whether a world makes the root true.
fn holds_in(parts: &Parts, world: u64, heap: Global) -> Result<bool, Fail> {
    let mut truths = Vec::new(heap);
    let mut last = false;
    for node in parts.nodes.as_slice() {
        let count = count_true(node, parts.children.as_slice(), truths.as_slice());
        last = match node.form {
            Form::Literal { variable, on } => is_on(world, variable) == on,
            Form::And => count == node.count as usize,
            Form::Fork { .. } => count > 0,
            Form::True => true,
            Form::False => false,
        };
        truths.push(last)?;
    }
    Ok(last)
}

// The product of the weights of a world's chances, 5 to 8.
fn weight_of(world: u64) -> u64 {
    (5..9u16)
        .map(|variable| 2 * variable as usize - if is_on(world, variable) { 2 } else { 1 })
        .filter_map(|place| WEIGHTS.get(place))
        .fold(1u64, |product, weight| product.wrapping_mul(*weight))
}

// The figure of a selection, from its 16 worlds.
fn figure_of(parts: &Parts, selection: u64, heap: Global) -> Result<u64, Fail> {
    let mut sum = 0u64;
    for scenario in 0..16u64 {
        let world = selection.wrapping_add(scenario.wrapping_mul(16));
        if holds_in(parts, world, heap)? {
            sum = sum.wrapping_add(weight_of(world));
        }
    }
    Ok(sum)
}

// The figures of the 16 selections, from all 256 worlds.
fn figures_of(parts: &Parts, heap: Global) -> Result<Vec<u64>, Fail> {
    (0..16u64)
        .map(|selection| figure_of(parts, selection, heap))
        .try_collect(heap)
}

// Holds by a number below 81: a digit to base 3 for each option, 0 free, 1 on, 2 off.
fn holds_at(number: u64) -> Holds {
    let mut holds = Holds::new();
    let mut rest = number;
    for variable in 1..5u16 {
        match rest % 3 {
            1 => holds.hold(variable, true),
            2 => holds.hold(variable, false),
            _ => {}
        }
        rest = rest / 3;
    }
    holds
}

// Whether a selection keeps them.
fn is_kept(holds: &Holds, selection: u64) -> bool {
    (1..5u16).all(|variable| match holds.entry(variable) {
        Entry::Free => true,
        entry => entry == Entry::from(is_on(selection, variable)),
    })
}

// The figures of the selections that keep them, in order: the first has the free options off.
fn kept_by(holds: &Holds, figures: &[u64], heap: Global) -> Result<Vec<u64>, Fail> {
    let kept = figures
        .iter()
        .enumerate()
        .filter(|(selection, _)| is_kept(holds, *selection as u64))
        .map(|(_, figure)| *figure)
        .collect(heap)?;
    Ok(kept)
}

#[test]
fn worlds(rt: HostRuntime) -> Result<(), Fail> {
    let heap = rt.alloc();
    let text = file(BLOCK_ROLES, BLOCKS, heap)?;
    let parts = read(text.as_str(), heap)?;
    for due in BY_HAND {
        check_tallies(&rt, &parts, WEIGHTS, due, heap)?;
    }
    let figures = figures_of(&parts, heap)?;
    let sheet = tallies(WEIGHTS, heap)?;
    let mut work = vec![in heap; Tally { count: MARK }; 297]?;
    for number in 0..81u64 {
        let holds = holds_at(number);
        let kept = kept_by(&holds, figures.as_slice(), heap)?;
        let best = kept.iter().copied().max().unwrap_or(0);
        let answers = ask(&parts, sheet.as_slice(), &holds, work.as_mut_slice())?;
        let bound = answers.bound.count;
        assert_eq!(rt;
            Some(answers.figure.count),
            kept.first().copied(),
            "holds {number}"
        );
        assert!(rt; best <= bound, "holds {number}");
        assert!(rt; bound <= answers.plain.count, "holds {number}");
        assert!(rt; kept.len() > 1 || bound == best, "holds {number}");
    }
    Ok(())
}
