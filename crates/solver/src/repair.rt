// Times repaired where one lag more is to be kept, or a loop that it closes.
ghost use Rattle.std.specs.Prelude.{◌<◌, ◌≤◌, ◌↔◌, length, IsTrue};
ghost use Rattle.solver.specs.Solving.{EachKnown, KeepsAllBut, KeepsLag, KeepsUnlessFrom, LeaveRoom, RepairEnds, SumsFit};
ghost use Rattle.solver.specs.Words.{Stands};
ghost use Rattle.solver.specs.Working.{HasRoom, SameRows};

use crate::network::{Network, Standing};
use crate::rounds::is_after;
use crate::settle::go_rounds;
use crate::words::with_event;
use crate::work::{Step, Work};
use rows::MOST_EVENTS;

// Whether the totals keep the lag to one event from another; where none stands, they do.
fn keeps_lag<N: Network>(net: &N, totals: &[Option<N::Kind>], to: usize, from: usize) -> bool
    requires to { to < N.Network.size net.now }
    requires from { from < N.Network.size net.now }
    requires totals { N.Network.size net.now ≤ length totals.now }
    requires fits { SumsFit N.Network N.Kind.Mark net.now totals.now }
    ensures { IsTrue result ↔ KeepsLag N.Network N.Kind.Mark net.now totals.now to from }
{
    let known = totals[from];
    let Some(total) = known else {
        return true;
    };
    let Some(sum) = net.follow(total, to, from) else {
        return true;
    };
    !is_after(sum, totals[to])
}

// Rounds from times of which only one event asks more than the others have: nothing once they
// settle; or the length of a loop in the loop row.
fn raise_from<N: Network>(
    net: &N,
    standing: &Standing,
    work: &mut Work<'_, N::Kind>,
    event: usize,
    loop_row: &mut [Step],
) -> Option<usize>
    requires standing { Stands (N.Network.size net.now) (N.Network.weight net.now) standing.now }
    requires event { event < N.Network.size net.now }
    requires known { EachKnown N.Network N.Kind.Mark net.now work.old.totals.now }
    requires keeps { KeepsUnlessFrom N.Network N.Kind.Mark net.now work.old.totals.now event }
    requires leaves { LeaveRoom N.Network N.Kind.Mark net.now work.old.totals.now }
    requires room { HasRoom (N.Network.size net.now) work.old }
    requires places { N.Network.size net.now ≤ length loop_row.old }
    ensures ends { RepairEnds N.Network N.Kind.Mark net.now
        work.old.totals.now work.new.totals.now loop_row.old loop_row.new result }
    ensures rows { SameRows work.new work.old }
{
    // of fixed size, since there is no heap
    let mut sources = [[0; MOST_EVENTS]; MOST_EVENTS];
    let mut came = [0; MOST_EVENTS];
    let asking = with_event(0, event);
    // what rises, rises along lags from the event, so that its own rise closes a loop
    go_rounds(
        net,
        standing,
        work,
        &mut sources,
        &mut came,
        asking,
        asking,
        loop_row,
    )
    .err()
}

/// Repairs times. `work.totals` has times that keep every lag but the one to event `to` from event
/// `from`, which was put or asks more than before. Puts into it the least times that keep that lag
/// too and are nowhere before those; where they keep it already they stay, after one sum. Answers
/// nothing then, and leaves `loop_row` as it was. Where no times keep every lag, it puts a loop
/// into the first places of `loop_row`, its lowest event first, and answers its length. `standing`
/// is what `net.stand()` answers. What is left in `work.next` does not matter, nor, beside a loop,
/// what is left in `work.totals`.
pub fn repair<N: Network>(
    net: &N,
    standing: &Standing,
    work: &mut Work<'_, N::Kind>,
    to: usize,
    from: usize,
    loop_row: &mut [Step],
) -> Option<usize>
    requires standing { Stands (N.Network.size net.now) (N.Network.weight net.now) standing.now }
    requires to { to < N.Network.size net.now }
    requires from { from < N.Network.size net.now }
    requires known { EachKnown N.Network N.Kind.Mark net.now work.old.totals.now }
    requires keeps { KeepsAllBut N.Network N.Kind.Mark net.now work.old.totals.now to from }
    requires leaves { LeaveRoom N.Network N.Kind.Mark net.now work.old.totals.now }
    requires room { HasRoom (N.Network.size net.now) work.old }
    requires places { N.Network.size net.now ≤ length loop_row.old }
    ensures ends { RepairEnds N.Network N.Kind.Mark net.now
        work.old.totals.now work.new.totals.now loop_row.old loop_row.new result }
    ensures rows { SameRows work.new work.old }
{
    let totals = &mut *work.totals;
    if keeps_lag(net, totals, to, from) {
        return None;
    }
    raise_from(net, standing, work, from, loop_row)
}
