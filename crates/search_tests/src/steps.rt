//! Calls one by one, with what each may change.
use crate::shown::{show_answer, show_figures, show_holds};
use crate::spoken::call_of;
use kinds::tally::Tally;
use kinds::written::Written;
use passes::holds::Holds;
use passes::sheet::Sheet;
use search::call::Call;
use search::day::ask;
use search::order::BranchingOrder;
use std::alloc::{AllocError, Global};
use std::fmt::Display;
use std::process::Abort;
use std::test::Fail;
use table::table::Table;

/// What stands in a store before any call writes to it.
pub const MARK: Tally = Tally { count: 901 };

/// A variable, and whether it is held on.
pub type Held = (u16, bool);

/// A call and its answer, as texts.
pub type Step = (&'static str, &'static str);

/// The holds of these variables.
pub(crate) fn holds_of(held: &[Held]) -> Holds {
    let mut holds = Holds::new();
    for (variable, on) in held {
        holds.hold(*variable, *on);
    }
    holds
}

// What the calls of a study may change, as texts: a test that fails shows them as the cases do.
#[derive(Drop)]
struct Shown {
    holds: String,
    sheet: String,
    work: String,
}

fn may_hold<K: Written>(call: Call<K>) -> bool {
    matches!(call, Call::Hold { .. } | Call::Release { .. })
}

fn may_weigh<K: Written>(call: Call<K>) -> bool {
    matches!(call, Call::Weigh { .. })
}

/// A study: its table, and what its calls may change.
#[derive(Drop)]
pub(crate) struct Study<'a, K> {
    pub table: Table<'a>,
    pub holds: Holds,
    pub figures: Vec<K>,
    pub work: Vec<K>,
}

impl<K: Written> Study<'_, K> {
    fn show(&self, heap: Global) -> Result<Shown, AllocError> {
        Ok(Shown {
            holds: show_holds(&self.holds, heap)?,
            sheet: show_figures(self.figures.as_slice(), heap)?,
            work: show_figures(self.work.as_slice(), heap)?,
        })
    }

    // Answers one call: it changes only what it may, and nothing if it is refused.
    fn run_step<O: BranchingOrder<K>>(
        &mut self,
        rt: &impl Abort,
        order: &O,
        number: usize,
        step: Step,
        heap: Global,
        case: &impl Display,
    ) -> Result<(), Fail> {
        let (spoken, due) = step;
        let call = call_of(spoken).ok_or_else(|| Fail::new(format_args!(
            "no call: call {number}: {spoken}: {case}"
        )))?;
        let before = self.show(heap)?;
        let Study {
            table,
            holds,
            figures,
            work,
        } = self;
        let mut sheet = Sheet {
            figures: figures.as_mut_slice(),
        };
        let answer = ask(table, order, holds, &mut sheet, work.as_mut_slice(), &call);
        let after = self.show(heap)?;
        let shown = show_answer(answer, heap)?;
        assert_eq!(rt; shown.as_str(), due, "call {number}: {spoken}: {case}");
        let refused = answer.is_err();
        if refused || !may_hold(call) {
            assert_eq!(rt;
                after.holds.as_str(),
                before.holds.as_str(),
                "holds: call {number}: {spoken}: {case}"
            );
        }
        if refused || !may_weigh(call) {
            assert_eq!(rt;
                after.sheet.as_str(),
                before.sheet.as_str(),
                "sheet: call {number}: {spoken}: {case}"
            );
        }
        if refused || may_hold(call) || may_weigh(call) {
            assert_eq!(rt;
                after.work.as_str(),
                before.work.as_str(),
                "work table: call {number}: {spoken}: {case}"
            );
        }
        Ok(())
    }

    /// Answers the calls by an order.
    pub(crate) fn run<O: BranchingOrder<K>>(
        &mut self,
        rt: &impl Abort,
        order: &O,
        steps: &[Step],
        heap: Global,
        case: &impl Display,
    ) -> Result<(), Fail> {
        for (i, step) in steps.iter().enumerate() {
            self.run_step(rt, order, i, *step, heap, case)?;
        }
        Ok(())
    }
}
