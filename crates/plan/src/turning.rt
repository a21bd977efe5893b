// From turned totals back to those that they turn.
ghost use Rattle.std.specs.Prelude.{◌≡◌, ◌≤◌, length, None, slice_index_or};
ghost use Rattle.std.specs.Option.{option_map};
ghost use Rattle.plan.specs.Filling.{LoopTurned};
ghost use Rattle.schedules.specs.Tables.{Overwritten};

use marks::kind::Mark;
use marks::turned::Turned;
use solver::work::Step;

// The inner totals of the first places.
pub(crate) fn turn_back<K: Mark>(
    count: usize,
    turned: &[Option<Turned<K>>],
    totals: &mut [Option<K>],
)
    requires { (count ≤ length turned.now) × (count ≤ length totals.old) }
    ensures { Overwritten (λ e. option_map (λ t. t.inner) (slice_index_or turned.now e None)) count
        totals.old totals.new }
{
    // by the event: of a zip of both rows no invariant can name the row that is written
    for (event, total) in totals[..count].iter_mut().enumerate() {
        *total = inner_of(turned[event]);
    }
}

// Named, since two functions need it.
pub(crate) fn inner_of<K: Mark>(total: Option<Turned<K>>) -> Option<K>
    ensures { result ≡ option_map (λ t. t.inner) total }
{
    total.map(|turned| turned.inner)
}

// The loop of so many events in the first places of a row, read the other way round: its first
// event stays, and the others follow in the opposite order.
pub(crate) fn turn_loop(len: usize, loop_row: &mut [Step])
    requires { (1 ≤ len) × (len ≤ length loop_row.old) }
    ensures { LoopTurned len loop_row.old loop_row.new }
{
    loop_row[1..len].reverse();
}
