//! What a table file says: its header, its variables and its node records.
ghost use Rattle.std.specs.Prelude.{◌≡◌, ◌<◌, ◌≤◌, List, [], ◌∷◌, ◌++◌, IsAscii, IsUtf8};

/// What a node of the circuit is.
#[derive(Clone, Copy, Debug, PartialEq, Eq)]
pub enum Form {
    Literal { variable: u16, on: bool },
    And,
    Fork { variable: u16 },
    True,
    False,
}

/// A node of the circuit. Its children are the `count` numbers of the child store from place
/// `first` on; of a fork the on branch comes first.
#[derive(Clone, Copy, Debug, PartialEq, Eq)]
pub struct Node {
    pub form: Form,
    pub first: u16,
    pub count: u16,
}

/// Who sets a variable: the estimator sets an option, the site sets a chance.
#[derive(Clone, Copy, Debug, PartialEq, Eq)]
pub enum Role {
    Option,
    Chance,
}

/// A variable's name: the first `length` bytes, with zeros behind them.
#[derive(Clone, Copy, Debug, PartialEq, Eq)]
pub struct Name {
    pub bytes: [u8; 24],
    pub length: u8,
    ghost fits: { length ≤ 24 },
}

impl Name {
    ghost use Rattle.text.specs.Format.{name_of, spelled};

    /// The name that a text of at most 24 bytes spells; what is longer is cut.
    pub(crate) fn new(text: &[u8]) -> Name
        ensures { result ≡ name_of text.now }
    {
        let length = text.len().min(24);
        let mut bytes = [0; 24];
        bytes[..length].copy_from_slice(&text[..length]);
        Name {
            bytes,
            length: length as u8,
        }
    }

    /// The name's bytes.
    pub fn as_bytes(&self) -> &[u8]
        ensures { result.now ≡ spelled self.now }
    {
        &self.bytes[0..self.length as usize]
    }

    /// The name as text: nothing where its bytes are none. The reader accepts only names of printable
    /// ASCII.
    pub fn as_str(&self) -> &str
        ensures ascii { IsAscii (spelled self.now) → result.now ≡ spelled self.now }
        ensures text { IsUtf8 (spelled self.now) → result.now ≡ spelled self.now }
        ensures other { ¬ (IsUtf8 (spelled self.now)) → result.now ≡ [] }
    {
        std::str::from_utf8(self.as_bytes()).unwrap_or("")
    }
}

/// A variable of the plant.
#[derive(Clone, Copy, Debug, PartialEq, Eq)]
pub struct Variable {
    pub role: Role,
    pub name: Name,
}

/// The variables 1 to `count`; variable i stands at place i - 1.
#[derive(Clone, Copy, Debug, PartialEq, Eq)]
pub struct Variables {
    pub all: [Variable; 64],
    pub count: u8,
    ghost fits: { count ≤ 64 },
}

impl Variables {
    ghost use Rattle.text.specs.Format.{is_named, option_count, variables_of, listed};

    /// No variables.
    pub(crate) fn none() -> Variables
        ensures { result ≡ variables_of [] }
    {
        let blank = Variable {
            role: Role::Chance,
            name: Name::new(&[]),
        };
        Variables {
            all: [blank; 64],
            count: 0,
        }
    }

    /// The variables in their order.
    pub fn as_slice(&self) -> &[Variable]
        ensures { result.now ≡ listed self.now }
    {
        &self.all[0..self.count as usize]
    }

    /// Whether one of the variables has this name.
    pub(crate) fn is_named(&self, name: &[u8]) -> bool
        ensures { result ≡ is_named name.now (listed self.now) }
    {
        self.as_slice().iter().any(|v| v.name.as_bytes() == name)
    }

    /// How many of the variables are options.
    pub fn options(&self) -> usize
        ensures { result ≡ option_count (listed self.now) }
    {
        self.as_slice()
            .iter()
            .filter(|v| v.role == Role::Option)
            .count()
    }

    /// One variable more.
    pub(crate) fn push(&mut self, variable: Variable)
        requires { self.old.count < 64 }
        ensures { (vs : List Variable) → self.old ≡ variables_of vs → self.new ≡ variables_of (vs ++ variable ∷ []) }
    {
        self.all[self.count as usize] = variable;
        self.count += 1;
    }
}

/// The counts that the first line gives.
#[derive(Clone, Copy, Debug, Default, PartialEq, Eq)]
pub struct Header {
    pub variables: u16,
    pub nodes: u16,
    pub children: u16,
}

/// What the reader answers beside what it wrote into the stores. `weights` is the place behind
/// the last node line, where the weight text begins.
#[derive(Clone, Copy, Debug, PartialEq, Eq)]
pub struct Contents {
    pub variables: Variables,
    pub nodes: u16,
    pub children: u16,
    pub weights: usize,
}
