//! Why an input is refused: the faults of a table file and of a weight text, what every refusal says,
//! and the line that a program prints for one.
ghost use Rattle.std.specs.Prelude.{◌≡◌, ℕ, [], ◌∷◌, Some};
ghost use Rattle.text.specs.Faults.{fault_number, fault_place};
ghost use Rattle.text.specs.Printed.{text_of, refusal_fields};
ghost use Rattle.text.specs.declared.fault.Layer.{Layer};
ghost use Rattle.text.specs.declared.fault.Layer.TheVariants.{Text};

use std::fmt;

/// What is wrong with a line.
#[derive(Clone, Copy, Debug, PartialEq, Eq)]
pub enum Reason {
    /// The line is missing or not closed, has a foreign byte, is not due or has not its fields.
    Line,
    /// A number, a literal or a weight has not its form.
    Number,
    /// A count of the header is outside its limits.
    Limit,
    /// A store is shorter than the header's count.
    Store,
    /// A variable's number, letter, name or the count of options breaks its rule.
    Variable,
    /// The children pass the header's count, or fall short of it.
    Children,
}

/// Why a file is refused.
#[derive(Clone, Copy, Debug, PartialEq, Eq)]
pub enum Fault {
    /// The file is empty or too long.
    Length,
    /// A line, counted from 1, is refused.
    Line { reason: Reason, line: usize },
}

/// The layer that a fault comes from.
#[derive(Clone, Copy, Debug, PartialEq, Eq)]
pub enum Layer {
    Text,
    Table,
    Study,
}

/// Why an input, or a call, is refused.
pub trait Refusal: Copy {
    ghost numbered: { Self → ℕ };

    ghost placed: { Self → ℕ };

    ghost layered: { Self → Layer };

    /// The refusal's number.
    fn number(self) -> u8
        ensures { result ≡ numbered self };

    /// The line, the node or the variable of the refusal, or 0.
    fn place(self) -> usize
        ensures { result ≡ placed self };

    /// The layer that the refusal comes from.
    fn layer(self) -> Layer
        ensures { result ≡ layered self };
}

impl Refusal for Fault {
    ghost numbered = { fault_number };

    ghost placed = { fault_place };

    ghost layered = { λ _. Text };

    fn number(self) -> u8 {
        match self {
            Fault::Length => 1,
            Fault::Line { reason, line: _ } => match reason {
                Reason::Line => 2,
                Reason::Number => 3,
                Reason::Limit => 4,
                Reason::Store => 5,
                Reason::Variable => 6,
                Reason::Children => 7,
            },
        }
    }

    fn place(self) -> usize {
        match self {
            Fault::Length => 0,
            Fault::Line { reason: _, line } => line,
        }
    }

    fn layer(self) -> Layer {
        Layer::Text
    }
}

/// A refusal as a line: its number and its place.
#[derive(Clone, Copy)]
pub struct RefusalLine<F>(pub F);

impl<F: Refusal> fmt::Display for RefusalLine<F> {
    ghost output = { λ l. Some (text_of (refusal_fields (F.numbered l.0) (F.placed l.0) ∷ [])) };

    fn fmt<W: fmt::Write>(&self, f: &mut fmt::Formatter<W>) -> fmt::Result {
        let number = self.0.number();
        let place = self.0.place();
        write!(f, "X\t{number}\t{place}\n")
    }
}
