//! Which options are held, and how.
ghost use Rattle.std.specs.Prelude.{◌≡◌, ◌<◌, replicate};
ghost use Rattle.passes.specs.Holding.{entry as entry_of, is_free, denies as denies_side, selected};
ghost use Rattle.passes.specs.Open.{FreeVariables};
ghost use Rattle.passes.specs.Marks.{entry_at, with_entry, held};

/// A variable's entry among the holds.
#[derive(Clone, Copy, PartialEq, Eq, Debug, Default)]
pub enum Entry {
    #[default]
    Free,
    On,
    Off,
}

/// An entry for each of 64 variables: variable v stands at place v - 1.
#[derive(Clone, Copy, PartialEq, Eq, Debug)]
pub struct Holds {
    pub entries: [Entry; 64],
}

/// The entry of an option that is held on (or off).
impl From<bool> for Entry {
    fn from(on: bool) -> Entry
        ensures { result ≡ held on }
    {
        if on { Entry::On } else { Entry::Off }
    }
}

/// Nothing is held.
impl Default for Holds {
    fn default() -> Holds
        ensures { result.entries ≡ replicate 64 Entry.Free }
    {
        Holds::new()
    }
}

impl Entry {
    /// Whether the variable is not held.
    fn is_free(self) -> bool
        ensures { result ≡ is_free self }
    {
        self == Entry::Free
    }
}

impl Holds {
    /// Nothing is held.
    pub fn new() -> Holds
        ensures { result.entries ≡ replicate 64 Entry.Free }
    {
        Holds {
            entries: [Entry::Free; 64],
        }
    }

    /// A variable's entry. A number that no variable has is free.
    pub fn entry(&self, variable: u16) -> Entry
        ensures { result ≡ entry_at self.now.entries variable }
    {
        let place = (variable as usize).checked_sub(1);
        place
            .and_then(|place| self.entries.get(place))
            .copied()
            .unwrap_or_default()
    }

    /// Changes a variable's entry.
    fn put(&mut self, variable: u16, entry: Entry)
        ensures { self.new.entries ≡ with_entry self.old.entries variable entry }
    {
        if let Some(place) = (variable as usize).checked_sub(1) {
            // Tried with `get_mut`: once its loan is over, a proof knows no elements of the array.
            if place < self.entries.len() {
                self.entries[place] = entry;
            }
        }
    }

    /// Holds a variable on (or off). A number that no variable has changes nothing.
    pub fn hold(&mut self, variable: u16, on: bool)
        ensures { self.new.entries ≡ with_entry self.old.entries variable (held on) }
    {
        self.put(variable, Entry::from(on));
    }

    /// Sets a variable free. A number that no variable has changes nothing.
    pub fn release(&mut self, variable: u16)
        ensures { self.new.entries ≡ with_entry self.old.entries variable Entry.Free }
    {
        self.put(variable, Entry::Free);
    }

    /// Whether the selection held has a variable on.
    pub(crate) fn is_on(&self, variable: u16) -> bool
        requires { 0 < variable }
        ensures { result ≡ selected self.now.entries variable }
    {
        self.entry(variable) == Entry::On
    }

    /// Whether a variable is not held.
    pub(crate) fn is_free(&self, variable: u16) -> bool
        ensures { result ≡ is_free (entry_at self.now.entries variable) }
    {
        self.entry(variable).is_free()
    }

    /// The set of the variables that are not held.
    pub(crate) fn free_set(&self) -> u64
        ensures { FreeVariables self.now.entries result }
    {
        let entries = self.entries;
        entries
            .iter()
            .rev()
            .fold(0, |set, entry| set << 1 | u64::from(entry.is_free()))
    }

    /// Whether a hold contradicts a variable's on (or off) literal.
    pub(crate) fn denies(&self, variable: u16, on: bool) -> bool
        requires { 0 < variable }
        ensures { result ≡ denies_side (entry_of self.now.entries variable) on }
    {
        self.entry(variable) == Entry::from(!on)
    }
}
