//! How many places of a work table the pair pass writes.
ghost use Rattle.std.specs.Prelude.{◌≡◌};
ghost use Rattle.table.specs.Whole.{circuit, roles};
ghost use Rattle.passes.specs.Places.{stride, pair_places};

use table::table::Table;

/// The places of a node's part: one for its value, and two for each option.
pub fn stride(table: &Table) -> usize
    ensures { result ≡ stride (roles table.now) }
{
    2 * table.variables.options() + 1
}

/// The places of the parts of all nodes: how many a work table needs for the pair pass.
#[tactic(auto, using(crate::proofs::Roots::few_options))]
pub fn pair_places(table: &Table) -> usize
    ensures { result ≡ pair_places (roles table.now) (circuit table.now) }
{
    table.nodes.len() * stride(table)
}
