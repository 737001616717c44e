//! Why a call of a study, or a weight text, is refused.
ghost use Rattle.std.specs.Prelude.{◌≡◌};
ghost use Rattle.table.specs.declared.fault.Fault.TheVariants as table_fault;
ghost use Rattle.search.specs.Faults.{fault_number, fault_place, fault_layer};

use table::fault::Fault as TableFault;
use text::fault::{Fault as TextFault, Layer, Refusal};

/// Why a call is refused: by a layer below, or for what it is given.
#[derive(Clone, Copy, Debug, PartialEq, Eq)]
pub enum Fault {
    Table(TableFault),
    /// The sheet has fewer than two figures for each variable.
    ShortSheet,
    /// The holds name a variable that is not an option of the table.
    StrayHold,
    /// The number given is not that of an option.
    NoOption { variable: u16 },
    /// The number given is not that of a chance.
    NoChance { variable: u16 },
    /// A line of a weight text weighs what is not a chance.
    WeightLine { line: usize },
    /// The option given is held.
    Held { variable: u16 },
    /// The option given is free.
    NotHeld { variable: u16 },
    /// An option is free.
    StillFree,
    /// The work table is too short.
    ShortWork,
}

impl Refusal for Fault {
    ghost numbered = { fault_number };

    ghost placed = { fault_place };

    ghost layered = { fault_layer };

    fn number(self) -> u8 {
        match self {
            Fault::Table(fault) => fault.number(),
            Fault::ShortSheet => 14,
            Fault::StrayHold => 15,
            Fault::NoOption { variable: _ } => 16,
            Fault::NoChance { variable: _ } => 17,
            Fault::WeightLine { line: _ } => 17,
            Fault::Held { variable: _ } => 18,
            Fault::NotHeld { variable: _ } => 19,
            Fault::StillFree => 20,
            Fault::ShortWork => 21,
        }
    }

    fn place(self) -> usize {
        match self {
            Fault::Table(fault) => fault.place(),
            Fault::NoOption { variable } => variable as usize,
            Fault::NoChance { variable } => variable as usize,
            Fault::WeightLine { line } => line,
            Fault::Held { variable } => variable as usize,
            Fault::NotHeld { variable } => variable as usize,
            Fault::ShortSheet | Fault::StrayHold | Fault::StillFree | Fault::ShortWork => 0,
        }
    }

    fn layer(self) -> Layer {
        match self {
            Fault::Table(fault) => fault.layer(),
            Fault::ShortSheet
            | Fault::StrayHold
            | Fault::NoOption { variable: _ }
            | Fault::NoChance { variable: _ }
            | Fault::WeightLine { line: _ }
            | Fault::Held { variable: _ }
            | Fault::NotHeld { variable: _ }
            | Fault::StillFree
            | Fault::ShortWork => Layer::Study,
        }
    }
}

impl From<TableFault> for Fault {
    ghost use Rattle.search.specs.declared.fault.Fault.TheVariants.{Table};

    ghost from_gives = { λ f e. e ≡ Table f };

    fn from(below: TableFault) -> Fault {
        Fault::Table(below)
    }
}

impl From<TextFault> for Fault {
    ghost use Rattle.search.specs.declared.fault.Fault.TheVariants.{Table};

    ghost from_gives = { λ f e. e ≡ Table (table_fault.Text f) };

    fn from(fault: TextFault) -> Fault {
        Fault::Table(TableFault::from(fault))
    }
}
