// Rounds: every event's total raised to what the lags ask, all sums read from the totals before.
ghost use Rattle.std.specs.Prelude.{◌≡◌, ℕ, ◌<◌, ◌≤◌, length, Some, None, slice_index_or};
ghost use Rattle.std.specs.Option.{option_map};
ghost use Rattle.solver.specs.Raising.{beats};
ghost use Rattle.solver.specs.Solving.{AskedFits, FollowedFrom, IdleOutside, InStep, RoundLeads, SumsFit};
ghost use Rattle.solver.specs.Words.{Among, Copied, Stands, StandsFrom};
ghost use Rattle.solver.specs.Working.{HasRoom, SameRows};

use crate::network::{Network, Standing};
use crate::words::{either, split, with_event};
use crate::work::Work;
use marks::kind::Mark;
use rows::MOST_EVENTS;

// The event that each total came from, in a row for each round.
pub(crate) type Sources = [[u8; MOST_EVENTS]; MOST_EVENTS];

// Whether a sum is after the best so far.
// in line, since it is asked of every lag
#[inline(always)]
pub(crate) fn is_after<K: Mark>(sum: K, best: Option<K>) -> bool
    ensures { result ≡ beats (K.Mark.row sum) (option_map K.Mark.row best) }
{
    best.is_none_or(|total| total.order(sum).is_lt())
}

// Raises the events of a word, in `next`, to what one event at its total asks of them; those that
// rose. The network comes by value, so that the loop need not read it again after each write.
fn follow_lags<N: Network>(
    net: N,
    total: N::Kind,
    from: usize,
    led_to: u64,
    next: &mut [Option<N::Kind>],
    sources: &mut [u8],
) -> u64
    requires from { from < N.Network.size net }
    requires led_to { StandsFrom (N.Network.size net) (N.Network.weight net) from led_to }
    requires fits { AskedFits N.Network N.Kind.Mark net from total }
    requires next { N.Network.size net ≤ length next.old }
    requires sources { N.Network.size net ≤ length sources.old }
    ensures { FollowedFrom N.Network N.Kind.Mark net from total
        next.old next.new sources.old sources.new result }
{
    let mut rest = led_to;
    let mut risen = 0;
    while let Some((to, left)) = split(rest) {
        rest = left;
        if let Some(sum) = net.follow(total, to, from)
            && is_after(sum, next[to])
        {
            next[to] = Some(sum);
            // a proof shows that it fits; `try_from` would have a fault that never comes
            sources[to] = from as u8;
            risen = with_event(risen, to);
        }
    }
    risen
}

// Every event raised, in `next`, along the lags from the events of a word; those that rose.
fn raise_all<N: Network>(
    net: &N,
    standing: &Standing,
    totals: &[Option<N::Kind>],
    next: &mut [Option<N::Kind>],
    sources: &mut [u8],
    asking: u64,
) -> u64
    requires standing { Stands (N.Network.size net.now) (N.Network.weight net.now) standing.now }
    requires fits { SumsFit N.Network N.Kind.Mark net.now totals.now }
    requires asking { IdleOutside N.Network N.Kind.Mark net.now totals.now asking }
    requires step { InStep N.Network N.Kind.Mark net.now totals.now next.old }
    requires totals { N.Network.size net.now ≤ length totals.now }
    requires next { N.Network.size net.now ≤ length next.old }
    requires sources { N.Network.size net.now ≤ length sources.old }
    ensures { RoundLeads N.Network N.Kind.Mark net.now totals.now next.new sources.new result }
{
    let mut rest = asking;
    let mut changed = 0;
    while let Some((from, left)) = split(rest) {
        rest = left;
        let known = totals[from];
        if let Some(total) = known {
            let risen = follow_lags(*net, total, from, standing[from], next, sources);
            changed = either(changed, risen);
        }
    }
    changed
}

// Copies what a round changed: the totals of the events of a word, and where they came from.
fn copy_changed<K: Mark>(
    changed: u64,
    next: &[Option<K>],
    totals: &mut [Option<K>],
    sources: &[u8],
    came: &mut [u8],
)
    requires next { Among (length next.now) changed }
    requires totals { Among (length totals.old) changed }
    requires sources { Among (length sources.now) changed }
    requires came { Among (length came.old) changed }
    ensures totals { Copied None changed next.now totals.old totals.new }
    ensures came { Copied 0 changed sources.now came.old came.new }
{
    let mut rest = changed;
    while let Some((event, left)) = split(rest) {
        rest = left;
        totals[event] = next[event];
        came[event] = sources[event];
    }
}

// One round along the lags from the events of a word: every total raised, and the word of those
// that this changed. The place of each such event in `sources` and in `came` has the event that its
// total came from.
pub(crate) fn go_round<N: Network>(
    net: &N,
    standing: &Standing,
    work: &mut Work<'_, N::Kind>,
    sources: &mut [u8],
    came: &mut [u8],
    asking: u64,
) -> u64
    requires standing { Stands (N.Network.size net.now) (N.Network.weight net.now) standing.now }
    requires fits { SumsFit N.Network N.Kind.Mark net.now work.old.totals.now }
    requires asking { IdleOutside N.Network N.Kind.Mark net.now work.old.totals.now asking }
    requires step { InStep N.Network N.Kind.Mark net.now work.old.totals.now work.old.next.now }
    requires room { HasRoom (N.Network.size net.now) work.old }
    requires sources { N.Network.size net.now ≤ length sources.old }
    requires came { N.Network.size net.now ≤ length came.old }
    ensures round { RoundLeads N.Network N.Kind.Mark net.now
        work.old.totals.now work.new.totals.now sources.new result }
    ensures came { Copied 0 result sources.new came.old came.new }
    ensures step { InStep N.Network N.Kind.Mark net.now work.new.totals.now work.new.next.now }
    ensures rows { SameRows work.new work.old }
{
    let totals = &mut *work.totals;
    let next = &mut *work.next;
    let changed = raise_all(net, standing, totals, next, sources, asking);
    copy_changed(changed, next, totals, sources, came);
    changed
}
