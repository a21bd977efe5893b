// Rounds from any first totals, until one changes nothing or a loop shows.
ghost use Rattle.std.specs.Prelude.{◌≡◌, ◌≤◌, length, MatchOption, OnOk};
ghost use Rattle.solver.specs.Settled.{GivenLeaveRoom};
ghost use Rattle.solver.specs.Solving.{IdleOutside, LeastWhereKept, LeaveRoom, RoundsEnd};
ghost use Rattle.solver.specs.Words.{EventIn, KnownEvents, Stands};
ghost use Rattle.solver.specs.Working.{HasRoom, SameRows};

use crate::network::{Network, Standing};
use crate::rounds::{Sources, go_round};
use crate::walk::write_loop;
use crate::words::{both, split, with_event};
use crate::work::{Step, Work, copy_totals};
use marks::kind::Mark;
use rows::MOST_EVENTS;

// An event to walk back from after so many rounds: a watched one that the last round changed, or
// any, where it is time to look.
fn suspect(count: usize, rounds: usize, changed: u64, watched: u64) -> Option<usize>
    ensures { MatchOption result (rounds ≡ count → changed ≡ 0) (EventIn changed) }
{
    if let Some((event, _)) = split(both(changed, watched)) {
        return Some(event);
    }
    // rarely, since a walk back takes as many steps as there were rounds
    if rounds == count || matches!(rounds, 4 | 8 | 16 | 32) {
        let (event, _) = split(changed)?;
        return Some(event);
    }
    None
}

// Rounds from the totals of the row, of which only those of the events of a word ask more than the
// others have: how many it took until the next one changes nothing; or the length of a loop, in the
// first places of the loop row. The place in `came` of each event whose total is not the first has
// the event that it came from. What `sources` has at first, and what is left there, does not
// matter.
pub(crate) fn go_rounds<N: Network>(
    net: &N,
    standing: &Standing,
    work: &mut Work<'_, N::Kind>,
    sources: &mut Sources,
    came: &mut [u8],
    asking: u64,
    watched: u64,
    loop_row: &mut [Step],
) -> Result<usize, usize>
    requires standing { Stands (N.Network.size net.now) (N.Network.weight net.now) standing.now }
    requires leaves { LeaveRoom N.Network N.Kind.Mark net.now work.old.totals.now }
    requires asking { IdleOutside N.Network N.Kind.Mark net.now work.old.totals.now asking }
    requires room { HasRoom (N.Network.size net.now) work.old }
    requires came { N.Network.size net.now ≤ length came.old }
    requires places { N.Network.size net.now ≤ length loop_row.old }
    ensures ended { RoundsEnd N.Network N.Kind.Mark net.now work.old.totals.now work.new.totals.now
        came.new loop_row.old loop_row.new result }
    ensures rows { SameRows work.new work.old }
{
    let count = net.events();
    let totals = &mut *work.totals;
    let next = &mut *work.next;
    copy_totals(count, totals, next);
    let mut changed = asking;
    for done in 0..count {
        changed = go_round(net, standing, work, &mut sources[done], came, changed);
        if changed == 0 {
            return Ok(done);
        }
        if let Some(event) = suspect(count, done + 1, changed, watched)
            && let Some(len) = write_loop(count, done + 1, sources, event, loop_row)
        {
            return Err(len);
        }
    }
    unreachable!()
}

// Those of the first so many events that have a total.
fn known_events<K: Mark>(count: usize, totals: &[Option<K>]) -> u64
    requires totals { count ≤ length totals.now }
    requires few { count ≤ 64 }
    ensures { KnownEvents count totals.now result }
{
    let mut known = 0;
    for (event, total) in totals[..count].iter().enumerate() {
        if total.is_some() {
            known = with_event(known, event);
        }
    }
    known
}

/// Totals within the limit of given totals leave room for lags within the limit of lags, as
/// [`settle_from`] asks of the first totals.
pub fn given_totals_leave_room()
    ensures { GivenLeaveRoom }
{}

/// Goes in rounds from the totals in `work.totals`, whatever they are, until a round changes
/// nothing. Answers how many rounds it took, the fewest after which one more changes nothing, and
/// leaves `loop_row` as it was. `work.totals` then has what they settled at: where any times keep
/// every lag, the least that are nowhere before the first totals, and nothing at an event that no
/// chain reaches from one with a first total. For each event whose total is not the first, `came`
/// has the event that it came from, and no more steps back along it than there were rounds lead to
/// an event at its first total; its other places do not matter. `standing` is what `net.stand()`
/// answers. What is left in `work.next` does not matter.
///
/// # Errors
///
/// The length of a loop, which is in the first places of `loop_row`, its lowest event first. What
/// is left in `work.totals` and in `came` does not matter then.
pub fn settle_from<N: Network>(
    net: &N,
    standing: &Standing,
    work: &mut Work<'_, N::Kind>,
    came: &mut [u8],
    loop_row: &mut [Step],
) -> Result<usize, usize>
    requires standing { Stands (N.Network.size net.now) (N.Network.weight net.now) standing.now }
    requires leaves { LeaveRoom N.Network N.Kind.Mark net.now work.old.totals.now }
    requires room { HasRoom (N.Network.size net.now) work.old }
    requires came { N.Network.size net.now ≤ length came.old }
    requires places { N.Network.size net.now ≤ length loop_row.old }
    ensures ended { RoundsEnd N.Network N.Kind.Mark net.now work.old.totals.now work.new.totals.now
        came.new loop_row.old loop_row.new result }
    ensures least { OnOk result
        (LeastWhereKept N.Network N.Kind.Mark net.now work.old.totals.now work.new.totals.now) }
    ensures rows { SameRows work.new work.old }
{
    let totals = &mut *work.totals;
    let asking = known_events(net.events(), totals);
    // of fixed size, since there is no heap
    let mut sources = [[0; MOST_EVENTS]; MOST_EVENTS];
    go_rounds(net, standing, work, &mut sources, came, asking, 0, loop_row)
}
