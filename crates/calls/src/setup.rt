//! What the first line of a script says.

/// The kind of the figures.
#[derive(Clone, Copy, Debug, PartialEq, Eq)]
pub enum Kind {
    Tally,
    Peak,
}

/// The branching order of every select.
#[derive(Clone, Copy, Debug, PartialEq, Eq)]
pub enum Order {
    Number,
    Lean,
}

/// A kind and an order, and how many figures the sheet and the work table have.
#[derive(Clone, Copy, Debug, PartialEq, Eq)]
pub struct Setup {
    pub kind: Kind,
    pub order: Order,
    pub sheet: u16,
    pub work: u16,
}
