// The least time of every event, or a loop.
ghost use Rattle.std.specs.Prelude.{◌≡◌, ℕ, ◌<◌, ◌≤◌, length, Some, None, slice_index_or};
ghost use Rattle.std.specs.Int.{bit_at};
ghost use Rattle.solver.specs.Solving.{AreLeast, HasSchedule, LeastOrLoop, OpeningEnds, RestEnds};
ghost use Rattle.solver.specs.Words.{Among, Stands};
ghost use Rattle.solver.specs.Working.{HasRoom, SameRows};

use crate::network::{Network, Standing};
use crate::reach::{reach, roots_of};
use crate::rounds::Sources;
use crate::settle::go_rounds;
use crate::subnetwork::{Subnetwork, leads_on, mask};
use crate::words::{first_events, has, with_event, without};
use crate::work::{Step, Work, fill_totals};
use marks::kind::Mark;
use rows::MOST_EVENTS;

// The total at every event of a word, and nothing at the others.
fn fill_events<K: Mark>(count: usize, totals: &mut [Option<K>], word: u64, total: K)
    requires totals { count ≤ length totals.old }
    requires few { count ≤ 64 }
    ensures inside { (v : ℕ) → v < count → bit_at word v ≡ 1
        → slice_index_or totals.new v None ≡ Some total }
    ensures outside { (v : ℕ) → v < count → bit_at word v ≡ 0
        → slice_index_or totals.new v None ≡ None }
{
    for (event, place) in totals[..count].iter_mut().enumerate() {
        *place = if has(word, event) { Some(total) } else { None };
    }
}

// Rounds from the opening alone: nothing once they settle; or the length of a loop in the loop row.
fn from_opening<N: Network>(
    net: &N,
    standing: &Standing,
    work: &mut Work<'_, N::Kind>,
    sources: &mut Sources,
    loop_row: &mut [Step],
) -> Option<usize>
    requires standing { Stands (N.Network.size net.now) (N.Network.weight net.now) standing.now }
    requires room { HasRoom (N.Network.size net.now) work.old }
    requires places { N.Network.size net.now ≤ length loop_row.old }
    ensures ends { OpeningEnds N.Network N.Kind.Mark net.now work.new.totals.now
        loop_row.old loop_row.new result }
    ensures rows { SameRows work.new work.old }
{
    fill_totals(net.events(), work.totals, None);
    work.totals[0] = Some(N::Kind::zero());
    let opening = with_event(0, 0);
    // of fixed size, since there is no heap
    let mut came = [0; MOST_EVENTS];
    // every total comes from the opening, so that one of its own closes a loop
    go_rounds(
        net, standing, work, sources, &mut came, opening, opening, loop_row,
    )
    .err()
}

// Rounds from zero over the lags that lead to events of a word: nothing once they settle; or the
// length of a loop in the loop row.
fn from_rest<N: Network>(
    net: &N,
    standing: &Standing,
    work: &mut Work<'_, N::Kind>,
    sources: &mut Sources,
    rest: u64,
    loop_row: &mut [Step],
) -> Option<usize>
    requires standing { Stands (N.Network.size net.now) (N.Network.weight net.now) standing.now }
    requires room { HasRoom (N.Network.size net.now) work.old }
    requires rest { Among (N.Network.size net.now) rest }
    requires places { N.Network.size net.now ≤ length loop_row.old }
    ensures ends { RestEnds N.Network N.Kind.Mark net.now rest loop_row.old loop_row.new result }
    ensures rows { SameRows work.new work.old }
{
    let standing = mask(standing, rest);
    if !leads_on(&standing) {
        return None;
    }
    let net = Subnetwork {
        net: *net,
        word: rest,
    };
    // rounds from these know the others too
    let roots = roots_of(&net, &standing, rest);
    fill_events(net.events(), work.totals, roots, N::Kind::zero());
    let mut came = [0; MOST_EVENTS];
    go_rounds(
        &net, &standing, work, sources, &mut came, roots, 0, loop_row,
    )
    .err()
}

/// Puts the least time of every event into `work.totals`, nothing where the event is free. Answers
/// nothing then, and leaves `loop_row` as it was. Where there is no schedule, it puts a loop into
/// the first places of `loop_row`, its lowest event first, and answers its length. What is left in
/// `work.next` does not matter.
// Where a chain from the opening reaches every event, the rounds from there are themselves a
// schedule; a loop among the events that none reaches is looked for first.
pub fn find_least<N: Network>(
    net: &N,
    work: &mut Work<'_, N::Kind>,
    loop_row: &mut [Step],
) -> Option<usize>
    requires room { HasRoom (N.Network.size net.now) work.old }
    requires places { N.Network.size net.now ≤ length loop_row.old }
    ensures sought { LeastOrLoop N.Network N.Kind.Mark net.now work.new.totals.now
        loop_row.old loop_row.new result }
    ensures rows { SameRows work.new work.old }
{
    let standing = net.stand();
    let reached = with_event(reach(net, &standing, 0), 0);
    let rest = without(first_events(net.events()), reached);
    // of fixed size, since there is no heap
    let mut sources = [[0; MOST_EVENTS]; MOST_EVENTS];
    if let Some(len) = from_rest(net, &standing, work, &mut sources, rest, loop_row) {
        return Some(len);
    }
    from_opening(net, &standing, work, &mut sources, loop_row)
}

/// Puts the least time of every event into `work.totals`, nothing where the event is free. The
/// network is one that has a schedule. What is left in `work.next` does not matter.
pub fn settle<N: Network>(net: &N, work: &mut Work<'_, N::Kind>)
    requires room { HasRoom (N.Network.size net.now) work.old }
    requires schedule { HasSchedule N.Network N.Kind.Mark net.now }
    ensures least { AreLeast N.Network N.Kind.Mark net.now work.new.totals.now }
    ensures rows { SameRows work.new work.old }
{
    let standing = net.stand();
    let mut sources = [[0; MOST_EVENTS]; MOST_EVENTS];
    let mut unused = [0; MOST_EVENTS];
    match from_opening(net, &standing, work, &mut sources, &mut unused) {
        None => (),
        Some(_) => unreachable!(),
    }
}
