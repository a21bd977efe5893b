// The closest starts: the greatest starts in time, moved.
ghost use Rattle.std.specs.Prelude.{◌≡◌, ◌+◌, ◌*◌, ◌<◌, ◌≤◌, length};
ghost use Rattle.std.specs.Option.{option_map};
ghost use Rattle.plan.specs.Calls.{RowWritten};
ghost use Rattle.plan.specs.Passing.{lags_of};
ghost use Rattle.plan.specs.Timed.{due_of, best_of, miss_of, largest_of};
ghost use Rattle.schedules.specs.Closest.{Closest};
ghost use Rattle.schedules.specs.Nearing.{moved, Moved, MovedFits};
ghost use Rattle.schedules.specs.Minutes.{minute};
ghost use Rattle.schedules.specs.Tables.{events};

use crate::calls::closest::timely::Timely;
use crate::stages::{latest_arrival, write_stages};
use crate::table::time_at;
use marks::kind::Mark;

// The first part of a total, and 0 where there is none, as `minute` has it: no total that is asked
// here is absent.
fn minute_of<K: Mark>(total: Option<K>) -> i64
    ensures { result ≡ minute (option_map K.Mark.row total) }
{
    total.and_then(|time| time.part(0)).unwrap_or(0)
}

// Half of a distance, rounded up.
fn half_up(distance: u64) -> u64
    ensures { (distance ≤ 2 * result) × (2 * result ≤ distance + 1) }
{
    distance.div_ceil(2)
}

impl<'a, 'b, 'c, K: Mark> Timely<'a, 'b, 'c, K> {
    // The distance of a stage's finish from its due time.
    fn miss(&self, j: usize) -> u64
        requires { j < self.now.table.stages }
        ensures { result ≡ miss_of self.now (j + 1) }
    {
        let end = latest_arrival(&self.table, self.starts, 2 * j + 2);
        minute_of(Some(self.due.nth(j))).abs_diff(minute_of(end))
    }

    // The largest distance of a finish from its due time.
    fn largest_miss(&self) -> u64
        ensures { result ≡ largest_of self.now }
    {
        (0..self.table.stages)
            .map(|j| self.miss(j))
            .max()
            .unwrap_or(0) // the largest of no distances
    }

    // A stage's start, moved by the distance.
    fn moved(&self, k: usize, distance: u64) -> Option<K>
        requires { (k < self.now.table.stages)
            × (MovedFits self.now.table.stages (best_of self.now) distance) }
        ensures { option_map K.Mark.row result ≡ moved (best_of self.now) distance (k + 1) }
    {
        let minute = minute_of(time_at(self.starts, 2 * k + 1));
        K::make_total(&[minute.saturating_add_unsigned(distance)])
    }

    // Writes every start, moved by the distance, and nothing at the other events.
    fn write_moved(&self, distance: u64, starts: &mut [Option<K>])
        requires { (MovedFits self.now.table.stages (best_of self.now) distance)
            × (events self.now.table.stages ≤ length starts.old) }
        ensures { RowWritten K.Mark self.now.table.stages
            (Moved self.now.table.stages (best_of self.now) distance)
            starts.old starts.new }
    {
        write_stages(
            self.table.stages,
            starts,
            |k| (self.moved(k, distance), None),
        );
    }

    // Writes the greatest starts in time, all moved by half of the largest distance of their
    // finishes, rounded up; answers that half.
    pub(crate) fn write_closest(&self, starts: &mut [Option<K>]) -> u64
        requires { events self.now.table.stages ≤ length starts.old }
        ensures { RowWritten K.Mark self.now.table.stages
            (λ y. Closest self.now.table.stages (lags_of self.now.table) (due_of self.now) y result)
            starts.old starts.new }
    {
        let distance = half_up(self.largest_miss());
        self.write_moved(distance, starts);
        distance
    }
}
