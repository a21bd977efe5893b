// The walk back from an event that a round changed, and the loop that it closes, if any.
ghost use Rattle.std.specs.Prelude.{◌≡◌, ◌+◌, ◌<◌, ◌≤◌, length, MatchOption};
ghost use Rattle.solver.specs.Trails.{back, CircledIn, HasAll, Leads, LowestAt, FoundOn, Met, PartSought};
ghost use Rattle.rows.specs.Limits.{most_events};
ghost use Rattle.schedules.specs.Walks.{Apart};

use crate::rounds::Sources;
use crate::words::{has, with_event};
use crate::work::Step;
use rows::MOST_EVENTS;

// A place of the path that has the event, if any; `met` has the events of the path, so that most
// are told without a look along it.
fn find_on(path: &[usize], met: u64, event: usize) -> Option<usize>
    requires event { event < 64 }
    requires met { HasAll met path.now }
    ensures { FoundOn path.now event result }
{
    if !has(met, event) {
        return None;
    }
    path.iter().position(|e| *e == event)
}

// Walks back along the events that totals came from, as many rounds as told, until one is met
// again; its two places on the path.
fn walk_back(
    count: usize,
    rounds: usize,
    sources: &Sources,
    event: usize,
    path: &mut [usize; MOST_EVENTS + 1],
) -> Option<(usize, usize)>
    requires leads { Leads count rounds (back rounds sources.now event) }
    requires few { count ≤ most_events }
    requires short { rounds ≤ count }
    ensures { MatchOption result (Apart (back rounds sources.now event) (rounds + 1))
        (λ places. Met rounds (back rounds sources.now event) path.new places.0 places.1) }
{
    path[0] = event;
    let mut met = with_event(0, event);
    // by the place, since each step reads the one before
    for last in 1..=rounds {
        let from = usize::from(sources[rounds - last][path[last - 1]]);
        path[last] = from;
        if let Some(first) = find_on(&path[..last], met, from) {
            return Some((first, last));
        }
        met = with_event(met, from);
    }
    None
}

// The place of the lowest of the events.
fn lowest_place(events: &[usize]) -> Option<usize>
    ensures { MatchOption result (length events.now ≡ 0) (LowestAt events.now) }
{
    events
        .iter()
        .enumerate()
        .min_by_key(|(_, event)| **event)
        .map(|(place, _)| place)
}

// Writes the events backwards, in a circle from the lowest on.
fn write_circle(events: &[usize], row: &mut [Step])
    requires { length events.now ≤ length row.old }
    ensures { CircledIn events.now row.old row.new }
{
    let circle = &mut row[..events.len()];
    circle.copy_from_slice(events);
    circle.reverse();
    if let Some(lowest) = lowest_place(circle) {
        circle.rotate_left(lowest);
    }
}

// Writes the loop that the walk back from an event closes, its lowest event first; its length.
// Nothing if the walk meets no event twice, and the row is left as it was.
pub(crate) fn write_loop(
    count: usize,
    rounds: usize,
    sources: &Sources,
    event: usize,
    row: &mut [Step],
) -> Option<usize>
    requires leads { Leads count rounds (back rounds sources.now event) }
    requires few { count ≤ most_events }
    requires short { rounds ≤ count }
    requires places { count ≤ length row.old }
    ensures { PartSought rounds (back rounds sources.now event) row.old row.new result }
{
    // a buffer of fixed size, since there is no heap
    let mut path = [0; MOST_EVENTS + 1];
    let (first, last) = walk_back(count, rounds, sources, event, &mut path)?;
    write_circle(&path[first + 1..=last], row);
    Some(last - first)
}
