//! Why a table is refused.
ghost use Rattle.std.specs.Prelude.{◌≡◌};
ghost use Rattle.table.specs.declared.fault.Fault.TheVariants.{Text};
ghost use Rattle.table.specs.Faults.{fault_number, fault_place, fault_layer};

use text::fault::{Fault as TextFault, Layer, Refusal};

/// What is wrong with a node.
#[derive(Clone, Copy, Debug, PartialEq, Eq)]
pub enum Flaw {
    /// A child's number is not below the node's.
    Order,
    /// The variable of a literal or a fork is not one of the table's.
    Variable,
    /// Two children of an and mention one variable.
    Shared,
    /// A fork's on branch lacks the on literal of its variable, or its off branch the off literal.
    Branch,
    /// The branches of a fork mention different chances.
    Uneven,
    /// The node is the root, and does not mention every chance.
    Missing,
}

/// Why a table is refused: by the reader, or for a node of its circuit.
#[derive(Clone, Copy, Debug, PartialEq, Eq)]
pub enum Fault {
    Text(TextFault),
    Node { flaw: Flaw, node: usize },
}

impl From<TextFault> for Fault {
    ghost from_gives = { λ f e. e ≡ Text f };

    fn from(fault: TextFault) -> Fault {
        Fault::Text(fault)
    }
}

impl Refusal for Fault {
    ghost numbered = { fault_number };

    ghost placed = { fault_place };

    ghost layered = { fault_layer };

    fn number(self) -> u8 {
        match self {
            Fault::Text(fault) => fault.number(),
            Fault::Node { flaw, node: _ } => match flaw {
                Flaw::Order => 8,
                Flaw::Variable => 9,
                Flaw::Shared => 10,
                Flaw::Branch => 11,
                Flaw::Uneven => 12,
                Flaw::Missing => 13,
            },
        }
    }

    fn place(self) -> usize {
        match self {
            Fault::Text(fault) => fault.place(),
            Fault::Node { flaw: _, node } => node,
        }
    }

    fn layer(self) -> Layer {
        match self {
            Fault::Text(fault) => fault.layer(),
            Fault::Node { flaw: _, node: _ } => Layer::Table,
        }
    }
}
