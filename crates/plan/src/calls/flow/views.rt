// A plan with a flow in its lags, seen as a network.
ghost use Rattle.std.specs.Prelude.{◌≡◌, ◌≤◌, length};
ghost use Rattle.plan.specs.FlowSteps.{StagesNoted, flowing_lags};
ghost use Rattle.rows.specs.Limits.{most_events, most_stages};
ghost use Rattle.schedules.specs.Plans.{reversed};
ghost use Rattle.solver.proofs.FlowNets.{flow_net, reversed_flow_net};

use crate::calls::flow::flowing::Flowing;
use crate::calls::flow::numbers::{is_back_over_stage, shifted};
use crate::standing::words_of;
use marks::kind::Mark;
use marks::turned::Turned;
use solver::network::{Network, Standing, note_lag};

// Notes a lag to one event from another, and so at each further stage.
fn note_stages(standing: &mut Standing, stages: usize, to: usize, from: usize)
    requires few { stages ≤ most_stages }
    requires to { to ≤ 2 }
    requires from { from ≤ 2 }
    ensures { StagesNoted stages to from standing.old standing.new }
{
    for k in 0..stages {
        note_lag(standing, to + 2 * k, from + 2 * k);
    }
}

// Each lag in its own direction.
impl<'a, K: Mark> Network for Flowing<'a, K> {
    type Kind = K;

    ghost size = { λ plan. plan.table.count };

    ghost weight = { λ plan. flowing_lags plan };

    ghost sound = { λ plan.
        flow_net K.Mark.WIDTH plan.table.count plan.flow K.Mark.amount plan.table.lags.now
        K.Mark.amount_wide K.Mark.amount_limit plan.one plan.table.some plan.table.few
        plan.inside };

    fn events(&self) -> usize {
        self.table.count
    }

    fn follow(&self, total: K, to: usize, from: usize) -> Option<K> {
        if is_back_over_stage(to, from) {
            return shifted(total, self.back_minutes(to, from));
        }
        total.add(self.table.lag(to, from)?)
    }

    fn stand(&self) -> Standing {
        let count = self.table.count;
        let mut words = words_of(self.table.lags, count, 1, count);
        note_stages(&mut words, self.table.stages, 1, 2);
        words
    }
}

// The same plan with every direction reversed, over turned marks.
#[derive(Clone, Copy)]
pub(crate) struct FlowingReversed<'a, K: Mark> {
    pub(crate) plan: Flowing<'a, K>,
}

impl<'a, K: Mark> Network for FlowingReversed<'a, K> {
    type Kind = Turned<K>;

    ghost size = { λ view. view.plan.table.count };

    ghost weight = { λ view. reversed (flowing_lags view.plan) };

    ghost sound = { λ view.
        reversed_flow_net K.Mark.WIDTH view.plan.table.count view.plan.flow K.Mark.amount
        view.plan.table.lags.now K.Mark.amount_wide K.Mark.amount_limit view.plan.one
        view.plan.table.some view.plan.table.few view.plan.inside };

    fn events(&self) -> usize {
        self.plan.table.count
    }

    fn follow(&self, total: Turned<K>, to: usize, from: usize) -> Option<Turned<K>> {
        if is_back_over_stage(from, to) {
            return shifted(total, self.plan.back_minutes(from, to));
        }
        total.add(self.plan.table.lag(from, to)?)
    }

    fn stand(&self) -> Standing {
        let count = self.plan.table.count;
        let mut words = words_of(self.plan.table.lags, count, count, 1);
        note_stages(&mut words, self.plan.table.stages, 2, 1);
        words
    }
}
