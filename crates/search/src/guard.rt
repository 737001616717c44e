//! The guard of a trial.
ghost use Rattle.std.specs.Prelude.{◌≡◌, ◌<◌, slice_set};

use passes::holds::{Entry, Holds};

/// Holds that have one entry changed as long as the trial lives. At its end the entry is put back.
pub struct Trial<'a> {
    pub holds: &'a mut Holds,
    pub place: usize,
    pub before: Entry,
}

impl Drop for Trial<'_> {
    fn drop(self)
        requires { self.place < 64 }
        ensures { self.exit.0.now.entries ≡ slice_set self.entry.holds.now.entries self.entry.place self.entry.before }
    {
        let Trial {
            holds,
            place,
            before,
        } = self;
        holds.entries[place] = before;
    }
}
