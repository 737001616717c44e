//! Small tables, worked out by hand.
ghost use Rattle.std.specs.Prelude.{◌≡◌};
ghost use Rattle.search.specs.Cases.{Worked};

/// How many cases were worked out by hand. The definitions of figure, bounds, select and refusals
/// meet them all.
pub fn worked_cases() -> u8
    ensures many { result ≡ 11 }
    ensures met { Worked }
{
    11
}
