// Rounds from first totals of every sort: what they settle at, how many there are, what each total
// came from, and the loop that ends them.
ghost use Rattle.std.specs.Prelude.{
  ◌≡◌,
  ◌*◌,
  ◌<◌,
  ◌≤◌,
  ◌≢◌,
  ⊤,
  ℕ,
  length,
  None,
  slice_index,
  slice_index_or,
  IsTrue,
};
ghost use Rattle.rows.specs.Limits.{lag_limit, most_events};
ghost use Rattle.schedules.specs.Tables.{lags, place, times};
ghost use Rattle.solver.proofs.Nets.{table_net};
ghost use Rattle.solver.specs.Settled.{LeavesRoom};
ghost use Rattle.solver.specs.Words.{StandsFrom};

use crate::shared::{Act, Call, DONE, Trial, has_numbers};
use marks::kind::Mark;
use marks::minutes::Minutes;
use marks::stamps::Stamp;
use marks::totals::is_given;
use plan::Place;
use rows::MOST_EVENTS;
use solver::network::{Network, Standing, note_lag};
use solver::settle::settle_from;
use solver::work::{Step, Work};
use std::alloc::{AllocError, Global};
use std::process::Abort;
use std::test::Fail;

// The lags of a table, each in its own direction.
#[derive(Drop)]
struct Laid<'a, K: Mark> {
    count: usize,
    places: &'a [Place<K>],
    ghost some: { 1 ≤ count },
    ghost few: { count ≤ most_events },
    ghost full: { length places.now ≡ count * count },
}

// By hand, since a copy is not derived over ghost fields.
impl<'a, K: Mark> Clone for Laid<'a, K> {
    ghost is_clone = { λ net copy. copy ≡ net };

    ghost is_infallible = { λ _. ⊤ };

    fn clone(&self) -> Result<Self, AllocError> {
        Ok(*self)
    }
}

impl<'a, K: Mark> Copy for Laid<'a, K> {}

impl<'a, K: Mark> Laid<'a, K> {
    // The lag to an event from another.
    fn lag(&self, to: usize, from: usize) -> Option<K::Lag>
        requires to { to < self.now.count }
        requires from { from < self.now.count }
        ensures { result ≡ slice_index_or self.now.places.now (place self.now.count to from) None }
    {
        self.places[to * self.count + from]
    }
}

impl<'a, K: Mark> Network for Laid<'a, K> {
    type Kind = K;

    ghost size = { λ net. net.count };

    ghost weight = { λ net. lags K.Mark.amount net.count net.places.now };

    ghost sound = { λ net.
        table_net K.Mark.WIDTH net.count K.Mark.amount net.places.now
        K.Mark.amount_wide K.Mark.amount_limit net.some net.few };

    fn events(&self) -> usize {
        self.count
    }

    fn follow(&self, total: K, to: usize, from: usize) -> Option<K> {
        total.add(self.lag(to, from)?)
    }

    fn stand(&self) -> Standing {
        let mut standing = [0; MOST_EVENTS];
        for from in 0..self.count {
            note_from(self, &mut standing, from);
        }
        standing
    }
}

// Notes the lags from an event.
fn note_from<K: Mark>(net: &Laid<'_, K>, standing: &mut Standing, from: usize)
    requires from { from < net.now.count }
    requires empty { slice_index standing.old from ≡ 0 }
    ensures noted { StandsFrom net.now.count
        (lags K.Mark.amount net.now.count net.now.places.now) from
        (slice_index standing.new from) }
    ensures others { (u : ℕ) → u ≢ from → slice_index standing.new u ≡ slice_index standing.old u }
{
    for to in 0..net.count {
        if net.lag(to, from).is_some() {
            note_lag(standing, to, from);
        }
    }
}

// Whether each total is within the limit of given totals, so that there is room for as many lags as
// there are events.
fn leave_room<K: Mark>(count: usize, totals: &[Option<K>]) -> bool
    requires few { count ≤ most_events }
    requires totals { count ≤ length totals.now }
    ensures { IsTrue result → LeavesRoom lag_limit count (times K.Mark.row totals.now) }
{
    for total in &totals[..count] {
        if let Some(total) = total
            && !is_given::<K>(*total)
        {
            return false;
        }
    }
    true
}

// The rounds from the totals, or the length of a loop; nothing where a row does not fit, or a total
// is beyond the limit of given ones.
fn settle<K: Mark>(
    count: usize,
    places: &[Place<K>],
    work: &mut Work<'_, K>,
    came: &mut [u8],
    loop_row: &mut [Step],
) -> Option<Result<usize, usize>> {
    if count == 0 || count > MOST_EVENTS {
        return None;
    }
    if places.len() != count * count {
        return None;
    }
    if work.totals.len() < count {
        return None;
    }
    if work.next.len() < count {
        return None;
    }
    if came.len() < count || loop_row.len() < count {
        return None;
    }
    let totals = &mut *work.totals;
    if !leave_room::<K>(count, totals) {
        return None;
    }
    let net = Laid::<K> { count, places };
    let standing = net.stand();
    Some(settle_from(&net, &standing, work, came, loop_row))
}

#[derive(Debug)]
struct Case {
    // the lags are laid past all checks, into a plan of two stages
    lags: &'static [Act],
    first: &'static [Option<i64>],
    ended: Option<Result<usize, usize>>,
    totals: &'static [Option<i64>],
    // the events that changed, each with the one that its total came from
    came: &'static [(usize, u8)],
    loop_row: &'static [usize],
}

// Of a loop row that is as it was.
const UNWRITTEN: &[usize] = &[9, 9, 9, 9, 9];

const CASES: &[Case] = &[
    // what rose in a round is followed in the next one, up from the greatest of given totals
    Case {
        lags: &[
            Act::Lay((2, 1, 1_000_000)),
            Act::Lay((0, 2, 1_000_000)),
            Act::Lay((3, 0, 1_000_000)),
            Act::Lay((4, 3, 1_000_000)),
        ],
        first: &[None, Some(1_000_000_000), None, Some(-1_000_000_000), None],
        ended: Some(Ok(4)),
        totals: &[
            Some(1_002_000_000),
            Some(1_000_000_000),
            Some(1_001_000_000),
            Some(1_003_000_000),
            Some(1_004_000_000),
        ],
        came: &[(0, 2), (2, 1), (3, 0), (4, 3)],
        loop_row: UNWRITTEN,
    },
    // and down from the least
    Case {
        lags: &[
            Act::Lay((2, 1, -1_000_000)),
            Act::Lay((4, 2, -1_000_000)),
            Act::Lay((0, 4, -1_000_000)),
            Act::Lay((3, 0, -1_000_000)),
        ],
        first: &[None, Some(-1_000_000_000), None, Some(1_000_000_000), None],
        ended: Some(Ok(3)),
        totals: &[
            Some(-1_003_000_000),
            Some(-1_000_000_000),
            Some(-1_001_000_000),
            Some(1_000_000_000),
            Some(-1_002_000_000),
        ],
        came: &[(0, 4), (2, 1), (4, 2)],
        loop_row: UNWRITTEN,
    },
    // a total that no lag asks more of stays, of the opening too
    Case {
        lags: &[
            Act::Lay((4, 3, 2)),
            Act::Lay((3, 1, 3)),
            Act::Lay((1, 0, 4)),
            Act::Lay((2, 1, -5)),
        ],
        first: &[Some(-3), Some(4), Some(0), Some(7), Some(9)],
        ended: Some(Ok(0)),
        totals: &[Some(-3), Some(4), Some(0), Some(7), Some(9)],
        came: &[],
        loop_row: UNWRITTEN,
    },
    // an event that no chain reaches stays unknown, and a loop among such events is none of these
    // rounds
    Case {
        lags: &[
            Act::Lay((2, 1, 3)),
            Act::Lay((1, 2, 3)),
            Act::Lay((3, 0, -2)),
            Act::Lay((3, 1, 6)),
        ],
        first: &[Some(5), None, None, None, None],
        ended: Some(Ok(1)),
        totals: &[Some(5), None, None, Some(3), None],
        came: &[(3, 0)],
        loop_row: UNWRITTEN,
    },
    // a loop that the first totals reach
    Case {
        lags: &[
            Act::Lay((2, 3, 4)),
            Act::Lay((1, 2, -8)),
            Act::Lay((3, 1, 5)),
            Act::Lay((4, 1, 7)),
        ],
        first: &[None, None, Some(0), None, None],
        ended: Some(Err(3)),
        totals: &[],
        came: &[],
        loop_row: &[1, 3, 2, 9, 9],
    },
    // first totals beyond the limit of given ones are not gone from
    Case {
        lags: &[],
        first: &[None, None, Some(1_000_000_001), None, None],
        ended: None,
        totals: &[None, None, Some(1_000_000_001), None, None],
        came: &[],
        loop_row: UNWRITTEN,
    },
];

fn run_case<K: Mark>(rt: &impl Abort, alloc: Global, case: &Case) -> Result<(), Fail> {
    let mut trial = Trial::<K>::new(alloc, 2)?;
    trial.run(rt, &[Act::Ask(Call::Open, DONE), Act::Give(case.first)])?;
    trial.run(rt, case.lags)?;
    let mut next = vec![in alloc; None; 5]?;
    let mut came: Vec<u8> = vec![in alloc; 99; 5]?;
    let mut loop_row = vec![in alloc; 9; 5]?;
    let mut work = Work {
        totals: &mut trial.given,
        next: &mut next,
    };
    let ended = settle::<K>(5, &trial.table, &mut work, &mut came, &mut loop_row);
    assert_eq!(rt; ended, case.ended, "{case:?}");
    assert_eq!(rt; loop_row.as_slice(), case.loop_row, "{case:?}");
    if !matches!(ended, Some(Err(_))) {
        assert!(rt; has_numbers::<K>(&trial.given, case.totals), "{case:?}");
    }
    for (event, from) in case.came {
        assert_eq!(rt; came.get(*event), Some(from), "{case:?}");
    }
    Ok(())
}

fn run_cases<K: Mark>(rt: &impl Abort, alloc: Global) -> Result<(), Fail> {
    for case in CASES {
        run_case::<K>(rt, alloc, case)?;
    }
    Ok(())
}

#[test]
fn minutes_settle(rt: HostRuntime) -> Result<(), Fail> {
    run_cases::<Minutes>(&rt, rt.alloc())
}

#[test]
fn stamps_settle(rt: HostRuntime) -> Result<(), Fail> {
    run_cases::<Stamp>(&rt, rt.alloc())
}
