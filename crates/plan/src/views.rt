// A table of lags seen as a network.
ghost use Rattle.std.specs.Prelude.{◌≡◌, ◌<◌};
ghost use Rattle.plan.specs.Passing.{lags_of};
ghost use Rattle.schedules.specs.Plans.{reversed};
ghost use Rattle.solver.proofs.Nets.{table_net, reversed_net};
ghost use Rattle.solver.specs.Words.{StandsFrom};

use crate::standing::{word_of, words_of};
use crate::table::Table;
use marks::kind::Mark;
use marks::turned::Turned;
use solver::network::{Network, Standing};

// Each lag in its own direction.
#[derive(Clone, Copy)]
pub(crate) struct Forward<'a, K: Mark> {
    pub(crate) table: Table<'a, K>,
}

impl<'a, K: Mark> Forward<'a, K> {
    // The word of the events to which a lag leads from an event.
    pub(crate) fn stand_from(&self, event: usize) -> u64
        requires { event < self.now.table.count }
        ensures { StandsFrom self.now.table.count (lags_of self.now.table) event result }
    {
        word_of(self.table.lags, self.table.count, event, self.table.count)
    }
}

impl<'a, K: Mark> Network for Forward<'a, K> {
    type Kind = K;

    ghost size = { λ view. view.table.count };

    ghost weight = { λ view. lags_of view.table };

    ghost sound = { λ view.
        table_net K.Mark.WIDTH view.table.count K.Mark.amount view.table.lags.now
        K.Mark.amount_wide K.Mark.amount_limit view.table.some view.table.few };

    fn events(&self) -> usize {
        self.table.count
    }

    fn follow(&self, total: K, to: usize, from: usize) -> Option<K> {
        total.add(self.table.lag(to, from)?)
    }

    fn stand(&self) -> Standing {
        words_of(self.table.lags, self.table.count, 1, self.table.count)
    }
}

// The same table with every direction reversed, over turned marks: its least times are the greatest
// times of the plan, with every sign changed. A type of its own, since its totals are of another
// kind.
#[derive(Clone, Copy)]
pub(crate) struct Reversed<'a, K: Mark> {
    pub(crate) table: Table<'a, K>,
}

impl<'a, K: Mark> Network for Reversed<'a, K> {
    type Kind = Turned<K>;

    ghost size = { λ view. view.table.count };

    ghost weight = { λ view. reversed (lags_of view.table) };

    ghost sound = { λ view.
        reversed_net K.Mark.WIDTH view.table.count K.Mark.amount view.table.lags.now
        K.Mark.amount_wide K.Mark.amount_limit view.table.some view.table.few };

    fn events(&self) -> usize {
        self.table.count
    }

    fn follow(&self, total: Turned<K>, to: usize, from: usize) -> Option<Turned<K>> {
        total.add(self.table.lag(from, to)?)
    }

    fn stand(&self) -> Standing {
        words_of(self.table.lags, self.table.count, self.table.count, 1)
    }
}
