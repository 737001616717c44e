//! Peak: the highest load of any way. Alternatives take the greater, parts add up.
ghost use Rattle.std.specs.Prelude.{◌≤◌};

use crate::figure::Figure;
use crate::written::Written;
use std::fmt;
use text::fault::Reason;
use text::numeral::read_numeral;

/// A load. It stops at the highest `u32`.
#[derive(Clone, Copy, PartialEq, Eq, PartialOrd, Ord, Debug)]
pub struct Load {
    pub watts: u32,
    ghost fits: { watts ≤ 4294967295 },
}

/// The highest load of any way, or that there is no way: no way ranks below any load.
#[derive(Clone, Copy, PartialEq, Eq, PartialOrd, Ord, Debug)]
pub enum Peak {
    Impossible,
    Load(Load),
}

impl Figure for Peak {
    ghost use Rattle.kinds.specs.Peaks.{peaks};
    ghost use Rattle.kinds.specs.PeakLaws.{peak_laws};

    ghost ring = { peaks };

    ghost laws = { peak_laws };

    fn zero() -> Peak {
        Peak::Impossible
    }

    fn one() -> Peak {
        Peak::Load(Load { watts: 0 })
    }

    #[tactic(auto, using(crate::proofs::Greatest::max_sum))]
    fn plus(self, other: Peak) -> Peak {
        self.max(other)
    }

    fn times(self, other: Peak) -> Peak {
        match (self, other) {
            (Peak::Load(a), Peak::Load(b)) => Peak::Load(Load {
                watts: a.watts.saturating_add(b.watts),
            }),
            _ => Peak::Impossible,
        }
    }

    fn no_higher(self, other: Peak) -> bool {
        self <= other
    }
}

impl fmt::Display for Load {
    ghost use Rattle.std.specs.Prelude.{Some, decimal};

    ghost output = { λ a. Some (decimal a.watts) };

    fn fmt<W: fmt::Write>(&self, f: &mut fmt::Formatter<W>) -> fmt::Result {
        write!(f, "{}", self.watts)
    }
}

impl fmt::Display for Peak {
    ghost use Rattle.std.specs.Prelude.{Some};
    ghost use Rattle.kinds.specs.Peaks.{peak_text};

    ghost output = { λ p. Some (peak_text p) };

    fn fmt<W: fmt::Write>(&self, f: &mut fmt::Formatter<W>) -> fmt::Result {
        match self {
            Peak::Impossible => write!(f, "-"),
            Peak::Load(load) => write!(f, "{load}"),
        }
    }
}

/// `-` for no way, or a number from 0 to the highest `u32`, with no leading zero.
impl Written for Peak {
    ghost use Rattle.std.specs.Prelude.{refl};
    ghost use Rattle.kinds.specs.Peaks.{peak_notation};
    ghost use Rattle.kinds.specs.PeakLaws.{peak_exact};

    const FIELDS: u8 = 1;

    ghost FIELDS = { 1 };

    ghost notation = { peak_notation };

    ghost exact = { peak_exact };

    fn read(text: &[u8]) -> Result<Peak, Reason> {
        if text == b"-".as_slice() {
            return Ok(Peak::Impossible);
        }
        let watts = read_numeral(text, 10, u64::from(u32::MAX)).ok_or(Reason::Number)?;
        Ok(Peak::Load(Load {
            watts: watts as u32,
        }))
    }

    ghost shown = { λ _. refl };

    ghost counted = { refl };
}
