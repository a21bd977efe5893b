// flow: the least that every stage can be held to, counted from its start to its finish.
ghost use Rattle.std.specs.Prelude.{◌≤◌, length, [], ◌∷◌, IfOk};
ghost use Rattle.std.specs.Result.{result_map_both};
ghost use Rattle.algebra.specs.Theorems.{FlowInAlgebra};
ghost use Rattle.plan.specs.Calls.{FlowCounted, FlowEnds, lags_in};
ghost use Rattle.rows.specs.Limits.{flow_limit};
ghost use Rattle.schedules.specs.FlowTheorems.{LeastSchedulable};
ghost use Rattle.schedules.specs.Tables.{times};

use crate::calls::flow::flowing::Flowing;
use crate::calls::flow::searching::{least_flow, settle_within};
use crate::checks::read_table;
use crate::fault::PlanFault;
use crate::solving::least_times;
use crate::table::Place;
use crate::turning::turn_back;
use marks::kind::Mark;
use marks::minutes::{Minutes, MinutesLag};
use marks::turned::Turned;
use solver::work::{Step, Work};

mod counting;
mod flowing;
mod lags;
mod numbers;
mod searching;
mod views;

/// The flow of a plan, with a count for who measures.
#[derive(Clone, Copy, PartialEq, Eq, Debug)]
pub struct FlowFound {
    /// The flow, in minutes.
    pub flow: u64,
    /// How many numbers were tried for it. What is promised is that it is 1 to `flow` + 1, and not 1
    /// where `flow` is not 0.
    pub asked: u64,
}

/// Answers the flow: the least whole number of minutes, 0 to 62,000,000, so that some schedule ends
/// every stage at most so long after the start of that stage. Writes for each event the greatest time over those
/// schedules, or none where the event is free: they have it after every row. The places of the
/// answer past the events stay.
///
/// Refused by 3, 4, 5 and 14. A refusal leaves answer and loop row as they were, but for the loop
/// of the plan that 14 writes into the first places of the loop row. The four rows behind the
/// answer are working rows: they may hold anything afterwards.
pub fn flow(
    stages: usize,
    table: &[Place<Minutes>],
    answer: &mut [Option<Minutes>],
    totals: &mut [Option<Minutes>],
    next: &mut [Option<Minutes>],
    turned: &mut [Option<Turned<Minutes>>],
    turned_next: &mut [Option<Turned<Minutes>>],
    loop_row: &mut [Step],
) -> Result<u64, PlanFault>
    ensures ends { FlowEnds ⟦<Minutes as Mark>⟧ stages table.now answer.old answer.new
        (length answer.old ∷ length totals.old ∷ length next.old
        ∷ length turned.old ∷ length turned_next.old ∷ length loop_row.old ∷ [])
        loop_row.old loop_row.new result }
    ensures lags { IfOk result
        (λ f. LeastSchedulable stages (lags_in ⟦<Minutes as Mark>⟧ stages table.now) f
        (times ⟦<Minutes as Mark>⟧.row answer.new)) }
    ensures inside { IfOk result (λ f. f ≤ flow_limit) }
    ensures algebra { IfOk result
        (FlowInAlgebra stages (lags_in ⟦<Minutes as Mark>⟧ stages table.now)) }
{
    let found = flow_counted(
        stages,
        table,
        answer,
        totals,
        next,
        turned,
        turned_next,
        loop_row,
    )?;
    Ok(found.flow)
}

/// What [`flow`] does and answers, with a count of the numbers that were tried.
pub fn flow_counted(
    stages: usize,
    table: &[Place<Minutes>],
    answer: &mut [Option<Minutes>],
    totals: &mut [Option<Minutes>],
    next: &mut [Option<Minutes>],
    turned: &mut [Option<Turned<Minutes>>],
    turned_next: &mut [Option<Turned<Minutes>>],
    loop_row: &mut [Step],
) -> Result<FlowFound, PlanFault>
    ensures ends { FlowEnds ⟦<Minutes as Mark>⟧ stages table.now answer.old answer.new
        (length answer.old ∷ length totals.old ∷ length next.old
        ∷ length turned.old ∷ length turned_next.old ∷ length loop_row.old ∷ [])
        loop_row.old loop_row.new
        (result_map_both (λ found. found.flow) (λ fault. fault) result) }
    ensures counted { IfOk result FlowCounted }
{
    let rows = [
        answer.len(),
        totals.len(),
        next.len(),
        turned.len(),
        turned_next.len(),
        loop_row.len(),
    ];
    let table = read_table::<Minutes>(stages, table, &rows)?;
    let mut work = Work { totals, next };
    least_times(&table, &mut work, loop_row)?;
    let found = least_flow(&table, &mut work);
    let mut turned_work = Work {
        totals: turned,
        next: turned_next,
    };
    let flow = found.flow;
    settle_within(&Flowing { table, flow }, &mut turned_work);
    turn_back(table.count, turned, answer);
    Ok(found)
}
