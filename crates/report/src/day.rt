//! What a program prints for a list of calls on a plant.
ghost use Rattle.std.specs.Prelude.{◌≡◌, [], ◌∷◌, IfOk};
ghost use Rattle.text.specs.Format.{listed};
ghost use Rattle.text.specs.Printed.{PlainNames};
ghost use Rattle.table.specs.Whole.{circuit};
ghost use Rattle.search.specs.Day.{new, fixed_parts, answers};
ghost use Rattle.report.specs.Answers.{answer_line, answer_lines, table_day as table_day_of, day_report, MakesDay};
ghost use Rattle.report.specs.Stops.{Prints, Spells, SpellsNames};

use crate::answer::selection_text;
use crate::plant::{printed, zeros};
use crate::stop::Stop;
use kinds::figure::Figure;
use kinds::written::Written;
use parts::stores::{Parts, Room};
use passes::sheet::Sheet;
use search::call::{Call, Reply};
use search::day::work_day;
use search::fault::Fault;
use search::order::BranchingOrder;
use search::weights::read_weights;
use std::alloc::{AllocError, Global};
use table::table::Table;
use text::fault::RefusalLine;
use text::record::Variables;

/// What a call is answered.
type Answer<K> = Result<Reply<K>, Fault>;

/// How many figures the sheet and the work table have.
#[derive(Clone, Copy, Debug, PartialEq, Eq)]
pub struct Sizes {
    pub sheet: usize,
    pub work: usize,
}

/// What is printed for a file and a list of calls: the answer to each call, on a new study of the
/// plant, or the first refusal of the file.
pub fn day_report<K: Written, O: BranchingOrder<K>>(
    heap: Global,
    order: &O,
    sizes: Sizes,
    file: &[u8],
    calls: &[Call<K>],
) -> Result<String, AllocError>
    ensures text { Spells (day_report K.ring K.notation (O.picks order.now) sizes calls.now file.now) result }
    ensures day { MakesDay K.ring K.notation (O.picks order.now) sizes calls.now file.now }
{
    printed(heap, file_day::<K, O>(heap, order, sizes, file, calls))
}

/// What is printed for a file whose parts are accepted.
fn file_day<K: Written, O: BranchingOrder<K>>(
    heap: Global,
    order: &O,
    sizes: Sizes,
    file: &[u8],
    calls: &[Call<K>],
) -> Result<String, Stop>
    ensures { Prints (Unit {0}) (day_report K.ring K.notation (O.picks order.now) sizes calls.now file.now) result }
{
    let room = Room::largest();
    let parts = Parts::read(heap, &room, file)??;
    let table = parts.table()?;
    table_day(heap, order, sizes, &table, parts.weights(file), calls)
}

/// What is printed for a checked table, with its weight text.
fn table_day<K: Written, O: BranchingOrder<K>>(
    heap: Global,
    order: &O,
    sizes: Sizes,
    table: &Table,
    weights: &[u8],
    calls: &[Call<K>],
) -> Result<String, Stop>
    ensures { let vs = table.now.variables in
        let day_of = table_day_of K.ring K.notation (O.picks order.now) sizes calls.now in
        Prints (PlainNames (listed vs)) (day_of vs (circuit table.now) weights.now) result }
{
    let mut figures = zeros::<K>(heap, sizes.sheet)?;
    let mut work = zeros::<K>(heap, sizes.work)?;
    let mut sheet = Sheet {
        figures: &mut figures,
    };
    read_weights(table, &mut sheet, weights)?;
    let answers = day_answers(heap, order, table, &mut sheet, &mut work, calls)?;
    Ok(answers_text(heap, &table.variables, &answers)?)
}

/// The answers to the calls on a new study.
fn day_answers<K: Figure, O: BranchingOrder<K>>(
    heap: Global,
    order: &O,
    table: &Table,
    sheet: &mut Sheet<K>,
    work: &mut [K],
    calls: &[Call<K>],
) -> Result<Vec<Answer<K>>, AllocError>
    ensures { let s = fixed_parts table.now (O.picks order.now) work.old in
        IfOk result (λ v. v.items ≡ answers K.ring s (new sheet.old.figures.now) calls.now) }
{
    let mut answers = Vec::new(heap);
    answers.resize_with(calls.len(), || Ok(Reply::Done))?;
    work_day(table, order, sheet, work, calls, &mut answers);
    Ok(answers)
}

/// A line for each answer.
fn answers_text<K: Written>(
    heap: Global,
    variables: &Variables,
    answers: &[Answer<K>],
) -> Result<String, AllocError>
    ensures { SpellsNames variables.now (answer_lines K.notation (listed variables.now) answers.now) result }
{
    let mut text = String::new(heap);
    for answer in answers {
        let line = answer_text(heap, variables, *answer)?;
        text.push_str(line.as_str())?;
    }
    Ok(text)
}

/// The line of an answer.
fn answer_text<K: Written>(
    heap: Global,
    variables: &Variables,
    answer: Answer<K>,
) -> Result<String, AllocError>
    ensures { SpellsNames variables.now (answer_line K.notation (listed variables.now) answer ∷ []) result }
{
    match answer {
        Ok(Reply::Done) => String::from_str(heap, "D\n"),
        Ok(Reply::Value(figure)) => {
            let figure = figure.write(heap)?;
            format!(in heap; "V\t{figure}\n")
        }
        Ok(Reply::Chosen(found)) => selection_text(heap, variables, &found),
        Err(fault) => RefusalLine(fault).to_string(heap),
    }
}
