//! What a branching order is told: the free options.
ghost use Rattle.std.specs.Prelude.{◌≡◌, ◌+◌, ◌<◌, ◌≤◌, [], ◌∷◌, ◌++◌, length, take};
ghost use Rattle.table.specs.Whole.{circuit, roles};
ghost use Rattle.search.specs.Listing.{choices_from, root_mentions, choices as choices_of};

use passes::holds::{Entry, Holds};
use table::table::Table;

/// A free option: its number, whether the root mentions it, and where its on value stands in the
/// root's part of the work table. Its off value stands behind it.
#[derive(Clone, Copy, Debug, PartialEq, Eq)]
pub struct Choice {
    pub option: u16,
    pub mentioned: bool,
    pub place: usize,
}

/// Lists an option behind the first `count` choices if it is free: how many there are then.
/// `index` options come before it.
fn list_choice(
    table: &Table,
    holds: &Holds,
    variable: u16,
    index: usize,
    out: &mut [Choice],
    count: usize,
) -> usize
    requires variable { 0 < variable }
    requires index { index ≤ 64 }
    requires count { count < length out.old }
    ensures listed { let m = root_mentions (circuit table.now) in
        take result out.new ≡ take count out.old ++ choices_from m holds.now.entries index (variable ∷ []) }
    ensures few { result ≤ count + 1 }
{
    if holds.entry(variable) != Entry::Free {
        return count;
    }
    let mentioned = table.does_mention(table.nodes.len() - 1, variable);
    out[count] = Choice {
        option: variable,
        mentioned,
        place: 2 * index + 1,
    };
    count + 1
}

/// Lists the free options by rising number: how many there are.
pub(crate) fn list_choices(table: &Table, holds: &Holds, out: &mut [Choice]) -> usize
    requires { length (roles table.now) ≤ length out.old }
    ensures listed { take result out.new ≡ choices_of (roles table.now) (circuit table.now) holds.now.entries }
    ensures few { result ≤ length (roles table.now) }
{
    let variables = table.variables.as_slice().len() as u16;
    let options = (1..variables + 1).filter(|variable| table.has_option(*variable));
    let mut count = 0;
    for (index, variable) in options.enumerate() {
        count = list_choice(table, holds, variable, index, out, count);
    }
    count
}
