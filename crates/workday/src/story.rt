//! The task that is followed: two working days on one plant, each with its own branching order.
ghost use Rattle.std.specs.Prelude.{◌≡◌, IfOk, string_bytes};
ghost use Rattle.parts.specs.Parts.{check_parts};
ghost use Rattle.workday.specs.Told.{refused_words, check_refusal, refusal_of, SaysRefusal};
ghost use Rattle.workday.specs.Words.{options_words, chances_words};

use crate::words::{Answer, AnswerWords, CallWords, RefusalWords};
use kinds::tally::Tally;
use parts::stores::{Parts, Room};
use passes::holds::Entry;
use passes::places::pair_places;
use passes::sheet::{LARGEST_SHEET, Sheet};
use search::call::{Call, Reply};
use search::day::work_day;
use search::fault::Fault;
use search::found::Selection;
use search::number_order::number_order;
use search::order::BranchingOrder;
use search::strongest_lean::strongest_lean;
use search::weights::read_weights;
use std::alloc::{AllocError, Global};
use table::table::Table;
use text::fields::NEWLINE;
use text::record::Variables;

/// What the program prints for a file: what was done on its plant, or why the file is refused.
pub(crate) fn tell(heap: Global, file: &[u8]) -> Result<String, AllocError>
    ensures { IfOk result (λ s. SaysRefusal (refusal_of file.now) (string_bytes s)) }
{
    let room = Room::largest();
    match Parts::read(heap, &room, file)? {
        Ok(parts) => checked(heap, &parts, parts.weights(file)),
        Err(fault) => refused(heap, "plant file", Fault::from(fault)),
    }
}

/// The line for a part of the input that is refused.
fn refused(heap: Global, part: &str, fault: Fault) -> Result<String, AllocError>
    ensures { IfOk result (λ s. string_bytes s ≡ refused_words part.now fault) }
{
    let refusal = RefusalWords(fault);
    format!(in heap; "The {part} is refused: {refusal}.\n")
}

/// What is printed for a file that was read.
fn checked(heap: Global, parts: &Parts, weights: &[u8]) -> Result<String, AllocError>
    ensures { IfOk result (λ s. SaysRefusal (check_refusal (check_parts parts.now)) (string_bytes s)) }
{
    match parts.table() {
        Ok(table) => accepted(heap, &table, weights),
        Err(fault) => refused(heap, "plant file", Fault::Table(fault)),
    }
}

/// What is printed for a table that is accepted: what it is made of, then what is printed for the
/// weights, and for the days if the weights are accepted.
fn accepted(heap: Global, table: &Table, weights: &[u8]) -> Result<String, AllocError> {
    let variables = table.variables.count;
    let options = table.variables.options();
    let chances = chance_count(table);
    let nodes = table.nodes.len();
    let mut figures = vec![in heap; Tally { count: 1 }; LARGEST_SHEET]?;
    let rest = match weigh_all(table, &mut figures, weights) {
        Ok(()) => {
            let study = Study {
                heap,
                table,
                figures: &figures,
            };
            study.text(line_count(weights))?
        }
        Err(fault) => refused(heap, "weight text", fault)?,
    };
    format!(in heap;
        "The table is accepted. Variables: {variables}, of which options: {options}, chances: {chances}. Nodes: {nodes}.\n{rest}"
    )
}

/// How many of the variables are chances.
fn chance_count(table: &Table) -> usize {
    usize::from(table.variables.count).saturating_sub(table.variables.options())
}

/// Reads the weight text into the figures.
fn weigh_all(table: &Table, figures: &mut [Tally], weights: &[u8]) -> Result<(), Fault> {
    let mut sheet = Sheet { figures };
    read_weights(table, &mut sheet, weights)
}

/// How many lines a text has.
fn line_count(text: &[u8]) -> usize {
    text.iter().filter(|byte| **byte == NEWLINE).count()
}

/// A plant whose weights are read: its table and its sheet of figures.
#[derive(Clone, Copy)]
struct Study<'a> {
    heap: Global,
    table: &'a Table<'a>,
    figures: &'a [Tally],
}

impl<'a> Study<'a> {
    /// The two days, behind what the weights are and what the plant is too small for.
    fn text(&self, lines: usize) -> Result<String, AllocError> {
        let read = self.read_text(lines)?;
        let calls = self.calls()?;
        let answers = self.work(&number_order::<Tally>(), &calls)?;
        let first_day = self.day_text(&calls, &answers)?;
        let second_day = self.second_day_text(&calls, chosen(&answers))?;
        format!(in self.heap;
            "{read}\nThe first day, with number order. Nothing is held yet.\n{first_day}\n{second_day}"
        )
    }

    /// How much the weight text says, and what the plant is too small for.
    fn read_text(&self, lines: usize) -> Result<String, AllocError> {
        let chances = chance_count(self.table);
        let total = self.total_weight();
        let few_options = few_options(self.table.variables.options());
        let few_chances = few_chances(chances);
        format!(in self.heap;
            "The weights are read. Lines: {lines}, for chances: {chances}. All scenarios together weigh {total}.\n{few_options}{few_chances}"
        )
    }

    /// The number of the last variable.
    fn last(&self) -> u16 {
        u16::from(self.table.variables.count)
    }

    /// The sum of the weights of all scenarios, up to the highest `u64`.
    fn total_weight(&self) -> u64 {
        (1..=self.last())
            .filter(|v| !self.table.has_option(*v))
            .filter_map(|v| self.weights_of(v))
            .map(|(on, off)| on.count.saturating_add(off.count))
            .fold(1u64, |total, either| total.saturating_mul(either))
    }

    /// The on and the off weight of a variable.
    fn weights_of(&self, variable: u16) -> Option<(Tally, Tally)> {
        let behind = 2 * usize::from(variable);
        let on = *self.figures.get(behind.checked_sub(2)?)?;
        let off = *self.figures.get(behind.checked_sub(1)?)?;
        Some((on, off))
    }

    /// The calls of both days: an option is held, another is tried, a weight is revised, and the
    /// best selection is asked for. Between them stand calls that are refused.
    fn calls(&self) -> Result<Vec<Call<Tally>>, AllocError> {
        let mut calls = Vec::new(self.heap);
        calls.push(Call::Bound)?;
        if let Some(variable) = self.nth(true, 0) {
            calls.extend_from_slice(&[
                Call::Hold { variable, on: true },
                Call::Hold {
                    variable,
                    on: false,
                },
            ])?;
        }
        if let Some(variable) = self.nth(true, 1) {
            calls.extend_from_slice(&[
                Call::Trial { variable, on: true },
                Call::Trial {
                    variable,
                    on: false,
                },
                Call::Release { variable },
                Call::Figure,
            ])?;
        }
        if let Some(weigh) = self.exchange() {
            calls.extend_from_slice(&[Call::Bound, weigh, Call::Bound])?;
        }
        calls.push(Call::Select)?;
        Ok(calls)
    }

    /// The number of the option, or the chance, behind so many others.
    fn nth(&self, option: bool, others: usize) -> Option<u16> {
        (1..=self.last())
            .filter(|v| self.table.has_option(*v) == option)
            .nth(others)
    }

    /// The call that exchanges the two weights of the second chance, or of the only one.
    fn exchange(&self) -> Option<Call<Tally>> {
        let variable = self.nth(false, 1).or(self.nth(false, 0))?;
        let (on, off) = self.weights_of(variable)?;
        Some(Call::Weigh {
            variable,
            on: off,
            off: on,
        })
    }

    /// Runs a day on a copy of the figures: its answers.
    fn work<O: BranchingOrder<Tally>>(
        &self,
        order: &O,
        calls: &[Call<Tally>],
    ) -> Result<Vec<Answer>, AllocError> {
        let mut copy = self.figures.to_vec(self.heap)?;
        let mut sheet = Sheet { figures: &mut copy };
        let mut room = vec![in self.heap; Tally { count: 0 }; pair_places(self.table)]?;
        let mut answers = vec![in self.heap; Ok(Reply::Done); calls.len()]?;
        let _ = work_day(
            self.table,
            order,
            &mut sheet,
            &mut room,
            calls,
            &mut answers,
        );
        Ok(answers)
    }

    /// A day's calls and their answers, line by line.
    fn day_text(&self, calls: &[Call<Tally>], answers: &[Answer]) -> Result<String, AllocError> {
        let variables = &self.table.variables;
        let mut text = String::new(self.heap);
        for (call, answer) in calls.iter().zip(answers) {
            let name = given(*call)
                .and_then(|v| name_of(variables, v))
                .unwrap_or("");
            let names = names_on(self.heap, variables, selection_of(*answer))?;
            let asked = CallWords { name, call: *call };
            let said = AnswerWords {
                names: names.as_str(),
                answer: *answer,
            };
            write!(text, "- {asked}: {said}.\n")?;
        }
        Ok(text)
    }

    /// The second day: the calls of the first, then those on the selection that was found on it.
    fn second_day_text(
        &self,
        first_calls: &[Call<Tally>],
        found: Option<Selection<Tally>>,
    ) -> Result<String, AllocError> {
        let calls = self.with_selection(first_calls, found)?;
        let answers = self.work(&strongest_lean::<Tally>(), &calls)?;
        let day = self.day_text(&calls, &answers)?;
        let end = verdict(found, counted(&answers));
        format!(in self.heap;
            "The second day, with strongest lean: the same calls on a new study, then the first day's selection.\n{day}\n{end}\n"
        )
    }

    /// The calls, and behind them those that hold a selection's other options, count its figure
    /// and let go of the first option.
    fn with_selection(
        &self,
        calls: &[Call<Tally>],
        found: Option<Selection<Tally>>,
    ) -> Result<Vec<Call<Tally>>, AllocError> {
        let mut all = calls.to_vec(self.heap)?;
        let Some(selection) = found else {
            return Ok(all);
        };
        let first = self.nth(true, 0);
        let others = (1..=self.last())
            .filter(|v| self.table.has_option(*v))
            .filter(|v| first != Some(*v));
        all.extend(others.map(|variable| Call::Hold {
            variable,
            on: selection.holds.entry(variable) == Entry::On,
        }))?;
        all.push(Call::Figure)?;
        all.extend(first.map(|variable| Call::Release { variable }))?;
        Ok(all)
    }
}

/// What is said of a plant with so few options, or nothing.
fn few_options(options: usize) -> &'static str
    ensures { result.now ≡ options_words options }
{
    match options {
        0 => "The plant has no option: none is held or tried.\n",
        1 => "The plant has no second option: none is tried.\n",
        _ => "",
    }
}

/// What is said of a plant with so few chances, or nothing.
fn few_chances(chances: usize) -> &'static str
    ensures { result.now ≡ chances_words chances }
{
    match chances {
        0 => "The plant has no chance: no weight is revised.\n",
        _ => "",
    }
}

/// The number of the variable that a call is given.
fn given(call: Call<Tally>) -> Option<u16> {
    match call {
        Call::Hold { variable, .. }
        | Call::Release { variable }
        | Call::Weigh { variable, .. }
        | Call::Trial { variable, .. } => Some(variable),
        Call::Figure | Call::Bound | Call::Select => None,
    }
}

/// A variable's name.
fn name_of(variables: &Variables, variable: u16) -> Option<&str> {
    let place = usize::from(variable).checked_sub(1)?;
    Some(variables.as_slice().get(place)?.name.as_str())
}

/// The names of the options that are on in a selection, if there is one.
fn names_on(
    heap: Global,
    variables: &Variables,
    selection: Option<Selection<Tally>>,
) -> Result<String, AllocError> {
    let Some(found) = selection else {
        return Ok(String::new(heap));
    };
    let names: Vec<&str> = (1..)
        .zip(variables.as_slice())
        .filter(|(number, _)| found.holds.entry(*number) == Entry::On)
        .map(|(_, variable)| variable.name.as_str())
        .collect(heap)?;
    if names.is_empty() {
        return String::from_str(heap, "none");
    }
    names.join(heap, ", ")
}

/// The selection that an answer gives.
fn selection_of(answer: Answer) -> Option<Selection<Tally>> {
    match answer {
        Ok(Reply::Chosen(found)) => found.best,
        _ => None,
    }
}

/// The first selection that the answers give.
fn chosen(answers: &[Answer]) -> Option<Selection<Tally>> {
    answers.iter().find_map(|answer| selection_of(*answer))
}

/// The figure or bound that an answer gives.
fn value_of(answer: Answer) -> Option<Tally> {
    match answer {
        Ok(Reply::Value(figure)) => Some(figure),
        _ => None,
    }
}

/// The last figure or bound that the answers give.
fn counted(answers: &[Answer]) -> Option<Tally> {
    answers.iter().filter_map(|answer| value_of(*answer)).last()
}

/// Whether the figure that was counted for a selection is the one that came with it.
fn verdict(found: Option<Selection<Tally>>, counted: Option<Tally>) -> &'static str {
    let Some(selection) = found else {
        return "There was no selection to hold.";
    };
    if counted == Some(selection.figure) {
        "The figure that was counted for the selection is the one that came with it."
    } else {
        "The figure that was counted for the selection is not the one that came with it."
    }
}
