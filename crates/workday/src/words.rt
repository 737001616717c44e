//! Refusals, calls and answers in words.
ghost use Rattle.std.specs.Prelude.{◌≡◌, Some};
ghost use Rattle.workday.specs.Words.{meaning_of, reason_meaning, flaw_meaning, place_word, refusal_words, side_word, call_words, answer_words};

use kinds::tally::Tally;
use search::call::{Call, Reply};
use search::fault::Fault;
use std::fmt;
use table::fault::{Fault as TableFault, Flaw};
use text::fault::{Fault as TextFault, Reason, Refusal};

/// What a call is answered.
pub(crate) type Answer = Result<Reply<Tally>, Fault>;

/// What the refusal of a line means.
fn reason_meaning(reason: Reason) -> &'static str
    ensures { result.now ≡ reason_meaning reason }
{
    match reason {
        Reason::Line =>
            "a line is missing, not closed, not due, has not its fields, or has a byte that may not stand there",
        Reason::Number => "a number, literal or weight has not its form",
        Reason::Limit => "a count of the first line is outside its limits",
        Reason::Store => "there are more nodes or children than there is room for",
        Reason::Variable =>
            "a variable's number, letter or name, or the count of options, breaks its rule",
        Reason::Children => "there are more or fewer children than the first line says",
    }
}

/// What the refusal of a node means.
fn flaw_meaning(flaw: Flaw) -> &'static str
    ensures { result.now ≡ flaw_meaning flaw }
{
    match flaw {
        Flaw::Order => "a child's number is not below its node's",
        Flaw::Variable => "the variable of a literal or fork is not one of the plant's",
        Flaw::Shared => "two parts that should stand apart mention one variable",
        Flaw::Branch => "a branch of a fork lacks the literal of its side",
        Flaw::Uneven => "the two branches of a fork mention different chances",
        Flaw::Missing => "the root does not mention every chance",
    }
}

/// What a refusal means.
fn meaning(fault: Fault) -> &'static str
    ensures { result.now ≡ meaning_of fault }
{
    match fault {
        Fault::Table(TableFault::Text(TextFault::Length)) =>
            "the file is empty, or longer than 65,536 bytes",
        Fault::Table(TableFault::Text(TextFault::Line { reason, .. })) => reason_meaning(reason),
        Fault::Table(TableFault::Node { flaw, .. }) => flaw_meaning(flaw),
        Fault::ShortSheet => "the sheet has too few figures",
        Fault::StrayHold => "something is held that is not an option of this plant",
        Fault::NoOption { .. } => "this is not an option",
        Fault::NoChance { .. } => "this is not a chance",
        Fault::WeightLine { .. } => "what the line weighs is not a chance",
        Fault::Held { .. } => "the option is held already",
        Fault::NotHeld { .. } => "the option is not held",
        Fault::StillFree => "an option is still free",
        Fault::ShortWork => "the work table is too short",
    }
}

/// What a refusal's place is the number of.
fn place_kind(fault: Fault) -> &'static str
    ensures { result.now ≡ place_word fault }
{
    match fault {
        Fault::Table(TableFault::Text(TextFault::Line { .. })) | Fault::WeightLine { .. } => "line",
        Fault::Table(TableFault::Node { .. }) => "node",
        Fault::NoOption { .. }
        | Fault::NoChance { .. }
        | Fault::Held { .. }
        | Fault::NotHeld { .. } => "variable",
        _ => "place",
    }
}

/// The word for a side.
fn side_word(on: bool) -> &'static str
    ensures { result.now ≡ side_word on }
{
    if on { "on" } else { "off" }
}

/// A refusal in words, with its number and its place.
#[derive(Clone, Copy)]
pub(crate) struct RefusalWords(pub Fault);

impl fmt::Display for RefusalWords {
    ghost output = { λ refusal. Some (refusal_words refusal.0) };

    fn fmt<W: fmt::Write>(&self, f: &mut fmt::Formatter<W>) -> fmt::Result {
        let fault = self.0;
        let number = fault.number();
        let kind = place_kind(fault);
        let place = fault.place();
        let words = meaning(fault);
        write!(f, "refusal {number}, {kind} {place}: {words}")
    }
}

/// A call in words, with the name of the variable that it is given, if it is given one.
#[derive(Clone, Copy)]
pub(crate) struct CallWords<'a> {
    pub name: &'a str,
    pub call: Call<Tally>,
}

impl<'a> fmt::Display for CallWords<'a> {
    ghost output = { λ asked. Some (call_words asked.name.now asked.call) };

    fn fmt<W: fmt::Write>(&self, f: &mut fmt::Formatter<W>) -> fmt::Result {
        let name = self.name;
        match self.call {
            Call::Hold { on, .. } => write!(f, "Hold '{name}' {}", side_word(on)),
            Call::Release { .. } => write!(f, "Release '{name}'"),
            Call::Weigh { on, off, .. } => write!(f, "Weigh '{name}' {on} on and {off} off"),
            Call::Trial { on, .. } => write!(f, "Bound if '{name}' were held {}", side_word(on)),
            Call::Figure => write!(f, "Figure of the selection held"),
            Call::Bound => write!(f, "Bound on what can be reached under the holds"),
            Call::Select => write!(f, "Best selection under the holds"),
        }
    }
}

/// An answer in words, with the names of the options that are on in a selection that it gives.
#[derive(Clone, Copy)]
pub(crate) struct AnswerWords<'a> {
    pub names: &'a str,
    pub answer: Answer,
}

impl<'a> fmt::Display for AnswerWords<'a> {
    ghost output = { λ said. Some (answer_words said.names.now said.answer) };

    fn fmt<W: fmt::Write>(&self, f: &mut fmt::Formatter<W>) -> fmt::Result {
        match self.answer {
            Err(fault) => write!(f, "{}", RefusalWords(fault)),
            Ok(Reply::Done) => write!(f, "done"),
            Ok(Reply::Value(figure)) => write!(f, "{figure}"),
            Ok(Reply::Chosen(found)) => {
                let openings = found.openings;
                let names = self.names;
                match found.best {
                    Some(best) => {
                        let figure = best.figure;
                        write!(f, "figure {figure}, openings {openings}, on: {names}")
                    }
                    None => write!(f, "none has a figure above 0, openings {openings}"),
                }
            }
        }
    }
}
