//! Branch and bound: a loop with a trail.
ghost use Rattle.std.specs.Prelude.{◌≡◌, ◌*◌, ◌^◌, ◌<◌, ◌≤◌, length};
ghost use Rattle.table.specs.Whole.{roles};

use crate::choice::{Choice, list_choices};
use crate::found::Found;
use crate::order::BranchingOrder;
use crate::trail::{Branch, retreat};
use kinds::figure::Figure;
use passes::holds::Holds;
use passes::places::stride;
use passes::query::Query;
use table::table::Table;

/// A checked table, two figures for each of its variables, and a branching order.
#[derive(Drop)]
pub(crate) struct Plan<'a, K, O> {
    pub table: &'a Table<'a>,
    pub sheet: &'a [K],
    pub order: &'a O,
    ghost fits: { 2 * length (roles table.now) ≤ length sheet.now },
}

impl<K: Figure, O: BranchingOrder<K>> Plan<'_, K, O> {
    ghost use Rattle.passes.specs.Places.{stride as stride_of};
    ghost use Rattle.search.specs.Best.{FoundBest};
    ghost use Rattle.search.specs.Calls.{places, BehindKept};
    ghost use Rattle.search.specs.Plans.{plan_asks, plan_branching, plan_next};
    ghost use Rattle.search.specs.Walk.{open_branch};

    /// The option that the order names of the free ones, which are at most `levels`, if one is
    /// free. `part` is the root's part of the work table.
    fn next_option(&self, holds: &Holds, levels: usize, part: &[K]) -> Option<u16>
        requires { length part.now ≡ stride_of (roles self.now.table.now) }
        ensures { result ≡ plan_next K.ring (O.picks self.now.order.now) self.now holds.now levels part.now }
    {
        if levels == 0 {
            return None;
        }
        let mut choices = [Choice {
            option: 0,
            mentioned: false,
            place: 0,
        }; 64];
        let count = list_choices(self.table, holds, &mut choices);
        if count == 0 {
            return None;
        }
        Some(self.order.pick(&choices[..count], part))
    }

    /// Opens one branch: the option to branch on, if anything follows. At most `levels` options are
    /// free.
    fn open(
        &self,
        holds: &Holds,
        work: &mut [K],
        levels: usize,
        found: &mut Found<K>,
    ) -> Option<u16>
        requires room { places self.now.table.now ≤ length work.old }
        requires few { found.old.openings < 2 ^ 63 }
        ensures option { let b = plan_branching K.ring (O.picks self.now.order.now) self.now holds.now in
            result ≡ (open_branch b levels holds.now.entries found.old).0 }
        ensures found { let b = plan_branching K.ring (O.picks self.now.order.now) self.now holds.now in
            found.new ≡ (open_branch b levels holds.now.entries found.old).1 }
        ensures work { BehindKept self.now.table.now work.old work.new }
    {
        let query = Query {
            table: self.table,
            sheet: self.sheet,
            holds,
        };
        let bound = query.pair_bound(work);
        let cut = bound.no_higher(found.figure_to_beat());
        found.openings += 1;
        if cut {
            return None;
        }
        let stride = stride(self.table);
        let base = (self.table.nodes.len() - 1) * stride;
        let next = self.next_option(holds, levels, &work[base..base + stride]);
        if next.is_none() {
            let figure = query.count_figure(work);
            found.offer(holds, figure);
        }
        next
    }

    /// The best selection that keeps the holds that it starts with: opens every branch that the bound does not rule
    /// out, on before off.
    pub(crate) fn explore(&self, start: Holds, work: &mut [K]) -> Found<K>
        requires room { places self.now.table.now ≤ length work.old }
        ensures best { FoundBest K.ring (plan_asks self.now start) (O.picks self.now.order.now) result }
        ensures work { BehindKept self.now.table.now work.old work.new }
    {
        let levels = self.table.variables.options();
        let mut trail = [Branch {
            option: 0,
            on: false,
        }; 64];
        let mut depth = 0;
        let mut current = start;
        let mut found = Found {
            best: None,
            openings: 0,
        };
        'branches: loop {
            match self.open(&current, work, levels - depth, &mut found) {
                Some(option) => {
                    trail[depth] = Branch { option, on: true };
                    current.hold(option, true);
                    depth += 1;
                }
                None => {
                    depth = retreat(&mut current, &mut trail, depth);
                    if depth == 0 {
                        return found;
                    }
                }
            }
        }
    }
}
