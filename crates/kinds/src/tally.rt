//! Tally: how many ways there are, counted up to the highest `u64`.
ghost use Rattle.std.specs.Prelude.{◌≤◌};

use crate::figure::Figure;
use crate::written::Written;
use std::fmt;
use text::fault::Reason;
use text::numeral::read_numeral;

/// A count of ways. It stops at the highest `u64`.
#[derive(Clone, Copy, PartialEq, Eq, PartialOrd, Ord, Debug)]
pub struct Tally {
    pub count: u64,
    ghost fits: { count ≤ 18446744073709551615 },
}

impl Figure for Tally {
    ghost use Rattle.kinds.specs.Tallies.{tallies};
    ghost use Rattle.kinds.specs.TallyLaws.{tally_laws};

    ghost ring = { tallies };

    ghost laws = { tally_laws };

    fn zero() -> Tally {
        Tally { count: 0 }
    }

    fn one() -> Tally {
        Tally { count: 1 }
    }

    fn plus(self, other: Tally) -> Tally {
        Tally {
            count: self.count.saturating_add(other.count),
        }
    }

    fn times(self, other: Tally) -> Tally {
        Tally {
            count: self.count.saturating_mul(other.count),
        }
    }

    fn no_higher(self, other: Tally) -> bool {
        self <= other
    }
}

impl fmt::Display for Tally {
    ghost use Rattle.std.specs.Prelude.{Some};
    ghost use Rattle.kinds.specs.Tallies.{tally_notation};

    ghost output = { λ t. Some (tally_notation.text t) };

    fn fmt<W: fmt::Write>(&self, f: &mut fmt::Formatter<W>) -> fmt::Result {
        write!(f, "{}", self.count)
    }
}

/// A number from 0 to the highest `u64`, with no leading zero.
impl Written for Tally {
    ghost use Rattle.std.specs.Prelude.{refl};
    ghost use Rattle.kinds.specs.Tallies.{tally_notation};
    ghost use Rattle.kinds.specs.TallyLaws.{tally_exact};

    const FIELDS: u8 = 1;

    ghost FIELDS = { 1 };

    ghost notation = { tally_notation };

    ghost exact = { tally_exact };

    fn read(text: &[u8]) -> Result<Tally, Reason> {
        let count = read_numeral(text, 20, u64::MAX).ok_or(Reason::Number)?;
        Ok(Tally { count })
    }

    ghost shown = { λ _. refl };

    ghost counted = { refl };
}
