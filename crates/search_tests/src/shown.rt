//! Holds, figures and answers as short texts.
use kinds::written::Written;
use passes::holds::{Entry, Holds};
use search::call::Reply;
use search::fault::Fault;
use search::found::Found;
use std::alloc::{AllocError, Global};
use text::fault::{Layer, Refusal};

/// What is held, by rising number: `+1-3` for 1 on and 3 off.
pub(crate) fn show_holds(holds: &Holds, heap: Global) -> Result<String, AllocError> {
    let mut text = String::new(heap);
    for (variable, entry) in (1u16..).zip(&holds.entries) {
        let sign = match entry {
            Entry::Free => continue,
            Entry::On => "+",
            Entry::Off => "-",
        };
        write!(text, "{sign}{variable}")?;
    }
    Ok(text)
}

/// Figures, with a space behind each.
pub(crate) fn show_figures<K: Written>(figures: &[K], heap: Global) -> Result<String, AllocError> {
    let mut text = String::new(heap);
    for figure in figures {
        write!(text, "{figure} ")?;
    }
    Ok(text)
}

/// A refusal's layer, number and place.
pub(crate) fn show_fault(fault: Fault, heap: Global) -> Result<String, AllocError> {
    let layer = match fault.layer() {
        Layer::Text => "text",
        Layer::Table => "table",
        Layer::Study => "study",
    };
    format!(in heap; "{layer} {} at {}", fault.number(), fault.place())
}

fn show_found<K: Written>(found: Found<K>, heap: Global) -> Result<String, AllocError> {
    let openings = found.openings;
    match found.best {
        None => format!(in heap; "none, {openings} opened"),
        Some(selection) => {
            let figure = selection.figure;
            let holds = show_holds(&selection.holds, heap)?;
            format!(in heap; "{figure} by {holds}, {openings} opened")
        }
    }
}

/// What a call is answered.
pub(crate) fn show_answer<K: Written>(
    answer: Result<Reply<K>, Fault>,
    heap: Global,
) -> Result<String, AllocError> {
    match answer {
        Ok(Reply::Done) => String::from_str(heap, "done"),
        Ok(Reply::Value(figure)) => figure.write(heap),
        Ok(Reply::Chosen(found)) => show_found(found, heap),
        Err(fault) => show_fault(fault, heap),
    }
}
