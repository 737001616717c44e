//! Reads a plant's table file, with its weight text, from standard input, checks it, bounds it and
//! selects on it, in both kinds and by both orders. With a task, a number of options held and a number
//! of repeats as its arguments it says how long that takes.
#![tactic(auto)]

mod asked;
mod measure;

use asked::Asked;
use kinds::figure::Figure;
use kinds::peak::Peak;
use kinds::tally::Tally;
use kinds::written::Written;
use measure::{holds_of, repeat_bound, repeat_check, repeat_select};
use parts::stores::{MOST_READ, Parts, Room};
use passes::sheet::{LARGEST_SHEET, Sheet};
use search::found::Found;
use search::number_order::NumberOrder;
use search::order::BranchingOrder;
use search::strongest_lean::StrongestLean;
use search::weights::read_weights;
use std::io;
use std::io::Read;
use std::time::Instant;
use table::table::Table;
use text::fault::RefusalLine;

/// How many options are held in the runs.
const HELD: &[u16] = &[0, 10, 20];

/// The places of the work table: 41 for each of 4,096 nodes.
const WORK_ROOM: usize = 167_936;

/// Prints the bounds in one kind.
fn print_bounds<K: Written + Clone>(
    rt: &HostRuntime,
    asked: &Asked,
    kind: &str,
    table: &Table,
    sheet: &Sheet<K>,
    work: &mut [K],
) -> io::Result<()> {
    for &held in HELD {
        if !asked.has_held(held) {
            continue;
        }
        let holds = holds_of(table, held as usize);
        let start = Instant::now(rt)?;
        let answer = repeat_bound(table, &holds, sheet, work, asked.count());
        let time = start.elapsed(rt)?;
        match answer {
            Ok(Some(bound)) => print!(rt; "bound\t{kind}\t{held}\t{bound}")?,
            Ok(None) => print!(rt; "bound\t{kind}\t{held}\tnone")?,
            Err(fault) => return print!(rt; "{}", RefusalLine(fault)),
        }
        asked.end_line(rt, time)?;
    }
    Ok(())
}

/// Prints how many branches were opened, and the best figure.
fn print_found<K: Written>(rt: &HostRuntime, found: Option<Found<K>>) -> io::Result<()> {
    let Some(Found { best, openings }) = found else {
        return print!(rt; "none");
    };
    match best {
        Some(selection) => print!(rt; "{openings} openings, {}", selection.figure),
        None => print!(rt; "{openings} openings, none"),
    }
}

/// Prints the best selections in one kind, by one order.
fn print_selections<K: Written + Clone, O: BranchingOrder<K>>(
    rt: &HostRuntime,
    asked: &Asked,
    kind: &str,
    order: (&str, &O),
    table: &Table,
    sheet: &Sheet<K>,
    work: &mut [K],
) -> io::Result<()> {
    let (name, order) = order;
    for &held in HELD {
        if !asked.has_held(held) {
            continue;
        }
        let holds = holds_of(table, held as usize);
        let start = Instant::now(rt)?;
        let answer = repeat_select(table, &holds, sheet, work, order, asked.count());
        let time = start.elapsed(rt)?;
        let found = match answer {
            Ok(found) => found,
            Err(fault) => return print!(rt; "{}", RefusalLine(fault)),
        };
        print!(rt; "select\t{kind} {name}\t{held}\t")?;
        print_found(rt, found)?;
        asked.end_line(rt, time)?;
    }
    Ok(())
}

/// Prints what is asked for in figures of one kind.
fn print_kind<K: Written + Clone>(
    rt: &HostRuntime,
    asked: &Asked,
    kind: &str,
    table: &Table,
    weights: &[u8],
) -> io::Result<()> {
    let mut figures = vec![in rt.alloc(); K::zero(); LARGEST_SHEET]?;
    let mut work = vec![in rt.alloc(); K::zero(); WORK_ROOM]?;
    let mut sheet = Sheet {
        figures: &mut figures,
    };
    if let Err(fault) = read_weights(table, &mut sheet, weights) {
        return print!(rt; "{}", RefusalLine(fault));
    }
    if asked.has_task("bound") {
        print_bounds(rt, asked, kind, table, &sheet, &mut work)?;
    }
    if asked.has_task("select") {
        let number = ("number", &NumberOrder);
        print_selections(rt, asked, kind, number, table, &sheet, &mut work)?;
        let lean = ("lean", &StrongestLean);
        print_selections(rt, asked, kind, lean, table, &sheet, &mut work)?;
    }
    Ok(())
}

fn main(rt: HostRuntime) -> io::Result<()> {
    let asked = Asked::read(&rt)?;
    let mut file = Vec::new(rt.alloc());
    rt.stdin().take(MOST_READ).read_to_end(&mut file)?;
    let file = file.as_slice();
    if asked.has_task("read") {
        let start = Instant::now(&rt)?;
        let answer = repeat_check(rt.alloc(), file, asked.count())?;
        let time = start.elapsed(&rt)?;
        match answer {
            Ok(Some(nodes)) => print!(rt; "read\t\t\t{nodes} nodes")?,
            Ok(None) => print!(rt; "read\t\t\tnone")?,
            Err(fault) => return print!(rt; "{}", RefusalLine(fault)),
        }
        asked.end_line(&rt, time)?;
    }
    let parts = match Parts::read(rt.alloc(), &Room::largest(), file)? {
        Ok(parts) => parts,
        Err(fault) => return print!(rt; "{}", RefusalLine(fault)),
    };
    let table = match parts.table() {
        Ok(table) => table,
        Err(fault) => return print!(rt; "{}", RefusalLine(fault)),
    };
    let weights = parts.weights(file);
    print_kind::<Tally>(&rt, &asked, "tally", &table, weights)?;
    print_kind::<Peak>(&rt, &asked, "peak", &table, weights)
}
