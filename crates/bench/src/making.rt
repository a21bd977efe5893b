// The plans of the benchmark, made by their rule.
ghost use Rattle.std.specs.Prelude.{◌≡◌, ◌<◌, ◌≤◌, length};

use crate::draws::Draws;
use crate::kinds::Kind;
use marks::kind::Mark;
use marks::minutes::{Minutes, MinutesLag};

/// The stages of every plan of the benchmark.
pub const STAGES: usize = 31;

/// Their events, the opening among them.
pub const EVENTS: usize = 63;

/// The places of their tables.
pub const PLACES: usize = EVENTS * EVENTS;

// In minutes: times are drawn below the first, the slack of a lag below the second.
const LATEST: u32 = 200_000;

const SLACK: u32 = 3_000;

// How many events stand on the loop of a tight plan.
const ON_LOOP: u32 = 12;

const LOOP_MINUTES: i64 = 500;

// Of the first chain; those of each later one are longer by a minute.
const CHAIN_MINUTES: i64 = 10;

fn put(table: &mut [Option<MinutesLag>], to: usize, from: usize, minutes: i64)
    requires places { length table.old ≡ 3969 }
    requires to { to < 63 }
    requires from { from < 63 }
{
    table[to * EVENTS + from] = Minutes::make_lag(&[minutes]).ok();
}

// A time for every event, the opening at 0.
fn draw_times(draws: &mut Draws) -> [u32; EVENTS] {
    let mut times = [0; EVENTS];
    for time in times.iter_mut().skip(1) {
        *time = draws.below(LATEST);
    }
    times
}

// The distance of a time from another, less a slack.
fn fall_short(to: u32, from: u32, slack: u32) -> i64 {
    i64::from(to) - i64::from(from) - i64::from(slack)
}

// Writes so many lags, each set of places as likely as another, that the times keep: each falls
// short of the distance of its two times by a slack, and that of an event to itself is 0.
fn draw_lags(draws: &mut Draws, count: u32, table: &mut [Option<MinutesLag>])
    requires places { length table.old ≡ 3969 }
{
    let times = draw_times(draws);
    let mut wanted = count;
    for place in 0..PLACES {
        if draws.below((PLACES - place) as u32) < wanted {
            wanted -= 1;
            let (to, from) = (place / EVENTS, place % EVENTS);
            let slack = if to == from { 0 } else { draws.below(SLACK) };
            put(table, to, from, fall_short(times[to], times[from], slack));
        }
    }
}

// Lays a lag to each event of some, drawn and in rising order, from the one before it, and to the
// first from the last.
fn draw_loop(draws: &mut Draws, table: &mut [Option<MinutesLag>])
    requires places { length table.old ≡ 3969 }
{
    let mut wanted = ON_LOOP;
    let mut ends: Option<(usize, usize)> = None;
    for event in 0..EVENTS {
        if draws.below((EVENTS - event) as u32) < wanted {
            wanted -= 1;
            let first = match ends {
                None => event,
                Some((first, last)) => {
                    put(table, event, last, LOOP_MINUTES);
                    first
                }
            };
            ends = Some((first, event));
        }
    }
    if let Some((first, last)) = ends {
        put(table, first, last, LOOP_MINUTES);
    }
}

// A lag to each event from the next, and to the last from the opening: each round of sums that goes
// from the opening changes one event.
fn lay_chain(table: &mut [Option<MinutesLag>], minutes: i64)
    requires places { length table.old ≡ 3969 }
{
    for to in 1..EVENTS {
        put(table, to, (to + 1) % EVENTS, minutes);
    }
}

/// Makes the plan of that number of the kind, in stead of what the table held.
pub fn make_plan(kind: Kind, number: u32, table: &mut [Option<MinutesLag>])
    requires places { length table.old ≡ 3969 }
    requires number { number < 20 }
{
    let mut draws = Draws::new(kind.first_number() + number);
    table.fill(None);
    draw_lags(&mut draws, kind.count_drawn(), table);
    match kind {
        Kind::Chain => lay_chain(table, CHAIN_MINUTES + i64::from(number)),
        Kind::Tight => draw_loop(&mut draws, table),
        _ => (),
    }
}
