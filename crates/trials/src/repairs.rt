// Times repaired after each lag: worked values, and the verdicts of set.
use crate::shared::{Act, Call, DONE, LOOP, Lag, Trial, UNFIT};
use marks::kind::Mark;
use marks::minutes::Minutes;
use marks::stamps::Stamp;
use marks::turned::Turned;
use std::alloc::Global;
use std::process::Abort;
use std::test::Fail;

const WORKED: &[Act] = &[
    // a lag that the times keep moves nothing, one that they break moves what waits on it
    Act::Ask(Call::Read(&[(2, 1, -5)]), DONE),
    Act::Repaired(&[Some(0), Some(0), Some(0), Some(0), Some(0)]),
    Act::Ask(
        Call::Read(&[(4, 3, 2), (3, 1, 3), (1, 0, 4), (2, 1, -5)]),
        DONE,
    ),
    Act::Repaired(&[Some(0), Some(4), Some(0), Some(7), Some(9)]),
    Act::Lags(&[(4, 3, 2), (3, 1, 3), (1, 0, 4), (2, 1, -5)]),
    // the opening waits like any event
    Act::Ask(Call::Read(&[(0, 2, -3), (2, 1, 5), (1, 3, 1)]), DONE),
    Act::Repaired(&[Some(3), Some(1), Some(6), Some(0), Some(0)]),
    // a loop of nothing all round is none
    Act::Ask(Call::Read(&[(1, 3, 6), (3, 1, -6), (4, 4, 0)]), DONE),
    Act::Repaired(&[Some(0), Some(6), Some(0), Some(0), Some(0)]),
    // the lag that closes a loop is not in the table afterwards
    Act::Ask(
        Call::Read(&[(4, 2, 1), (1, 4, -7), (0, 3, 9), (2, 1, 7)]),
        LOOP,
    ),
    Act::Closes(&[(2, 1, 7)]),
    Act::Loop(&[1, 2, 4, 9, 9]),
    Act::Lags(&[(4, 2, 1), (1, 4, -7), (0, 3, 9)]),
    Act::Ask(Call::Read(&[(3, 3, 1)]), LOOP),
    Act::Closes(&[(3, 3, 1)]),
    Act::Lags(&[]),
    // no event, and a pair twice
    Act::Ask(Call::Read(&[(5, 0, 1)]), UNFIT),
    Act::Ask(Call::Read(&[(0, 5, 1)]), UNFIT),
    Act::Ask(Call::Read(&[(2, 1, 5), (2, 1, 5)]), UNFIT),
];

// In an order in which some close loops.
const FEW: &[Lag] = &[
    (2, 1, 5),
    (3, 2, 4),
    (1, 3, -9),
    (1, 4, -3),
    (4, 2, 6),
    (0, 4, -20),
    (4, 0, 21),
    (4, 3, 8),
    (1, 0, 2),
    (3, 0, 12),
    (0, 3, -12),
    (0, 2, -7),
    (2, 2, 1),
    (3, 3, -1),
    (2, 4, -6),
    (3, 1, 10),
];

// The same over the most stages, and the longest lag.
const MANY: &[Lag] = &[
    (62, 61, 30),
    (61, 31, 40),
    (31, 9, 25),
    (9, 0, 10),
    (0, 62, -104),
    (0, 62, -105),
    (9, 62, -96),
    (31, 62, -71),
    (61, 62, -30),
    (17, 31, -400_000),
    (62, 17, 400_072),
    (62, 17, 400_071),
    (62, 17, 400_070),
    (5, 5, 0),
    (40, 17, 1_000_000),
    (0, 40, -600_034),
    (0, 40, -600_035),
];

// Lags are read, and those that close a loop are left out: they are the ones that set refuses, and
// the times keep the others.
fn reads_what_is_set<K: Mark>(
    rt: &impl Abort,
    alloc: Global,
    stages: usize,
    lags: &[Lag],
) -> Result<(), Fail> {
    let mut by_set = Trial::<K>::new(alloc, stages)?;
    by_set.run(rt, &[Act::Ask(Call::Open, DONE)])?;
    let mut reader = Trial::<K>::new(alloc, stages)?;
    let mut taken: Vec<Lag> = Vec::new(alloc);
    for lag in lags {
        let verdict = by_set.set(lag.0, lag.1, lag.2);
        taken.push(*lag)?;
        assert_eq!(rt; reader.read(&taken), verdict, "{lag:?}");
        if verdict.is_err() {
            assert!(rt; by_set.closes(&[*lag]), "{lag:?}");
            assert!(rt; reader.closes(&[*lag]), "{lag:?}");
            let _refused = taken.pop();
        } else {
            assert!(rt; reader.repaired_keep(), "{lag:?}");
        }
        assert!(rt; by_set.has_just(&taken), "{lag:?}");
        assert!(rt; reader.has_just(&taken), "{lag:?}");
    }
    Ok(())
}

fn run_repairs<K: Mark>(rt: &impl Abort, alloc: Global) -> Result<(), Fail> {
    Trial::<K>::new(alloc, 2)?.run(rt, WORKED)?;
    reads_what_is_set::<K>(rt, alloc, 2, FEW)?;
    reads_what_is_set::<K>(rt, alloc, 31, MANY)
}

#[test]
fn minutes_are_repaired(rt: HostRuntime) -> Result<(), Fail> {
    run_repairs::<Minutes>(&rt, rt.alloc())
}

#[test]
fn stamps_are_repaired(rt: HostRuntime) -> Result<(), Fail> {
    run_repairs::<Stamp>(&rt, rt.alloc())
}

#[test]
fn turned_stamps_are_repaired(rt: HostRuntime) -> Result<(), Fail> {
    run_repairs::<Turned<Stamp>>(&rt, rt.alloc())
}
