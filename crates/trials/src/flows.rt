// flow, which is offered at minutes alone: the checks in order, loops of the plan's own, lags that
// stand where the flow is put, worked plans, and the greatest flow there is.
use crate::numbers::{Asked, Case, run_cases};
use crate::shared::{Act, Call, DONE, Row, Trial};
use marks::fault::Layer;
use marks::minutes::Minutes;
use std::test::Fail;

const UNWRITTEN: &[Option<i64>] = &[Some(8), Some(8), Some(8), Some(8), Some(8)];

const UNWRITTEN_FOUR: &[Option<i64>] = &[Some(8), Some(8), Some(8), Some(8)];

const ALL_FREE: &[Option<i64>] = &[Some(0), None, None, None, None];

// Of a table that contradicts itself at every place: each row in turn is too short.
const REFUSED: &[Case] = &[
    Case {
        acts: &[Act::Renew(Row::Answer, 4), Act::Tell(0)],
        answer: Err((3, Layer::Plan)),
        times: UNWRITTEN_FOUR,
    },
    Case {
        acts: &[Act::Tell(32)],
        answer: Err((3, Layer::Plan)),
        times: UNWRITTEN_FOUR,
    },
    Case {
        acts: &[Act::Tell(1)],
        answer: Err((4, Layer::Plan)),
        times: UNWRITTEN_FOUR,
    },
    Case {
        acts: &[Act::Tell(3)],
        answer: Err((4, Layer::Plan)),
        times: UNWRITTEN_FOUR,
    },
    Case {
        acts: &[Act::Tell(2)],
        answer: Err((5, Layer::Plan)),
        times: UNWRITTEN_FOUR,
    },
    Case {
        acts: &[Act::Renew(Row::Answer, 5), Act::Renew(Row::Totals, 4)],
        answer: Err((5, Layer::Plan)),
        times: UNWRITTEN,
    },
    Case {
        acts: &[Act::Renew(Row::Totals, 5), Act::Renew(Row::Next, 4)],
        answer: Err((5, Layer::Plan)),
        times: UNWRITTEN,
    },
    Case {
        acts: &[Act::Renew(Row::Next, 5), Act::Renew(Row::Turned, 4)],
        answer: Err((5, Layer::Plan)),
        times: UNWRITTEN,
    },
    Case {
        acts: &[Act::Renew(Row::Turned, 5), Act::Renew(Row::TurnedNext, 4)],
        answer: Err((5, Layer::Plan)),
        times: UNWRITTEN,
    },
    Case {
        acts: &[Act::Renew(Row::TurnedNext, 5), Act::Renew(Row::Loop, 4)],
        answer: Err((5, Layer::Plan)),
        times: UNWRITTEN,
    },
    // no earlier check is missed
    Case {
        acts: &[Act::Renew(Row::Loop, 5)],
        answer: Err((14, Layer::Plan)),
        times: UNWRITTEN,
    },
    // the loop is the plan's own, also where a stage could end sooner
    Case {
        acts: &[
            Act::Closes(&[]),
            Act::Ask(Call::Open, DONE),
            Act::Renew(Row::Loop, 5),
            Act::Lay((2, 1, 9)),
            Act::Lay((4, 3, 5)),
            Act::Lay((3, 4, -4)),
        ],
        answer: Err((14, Layer::Plan)),
        times: UNWRITTEN,
    },
    Case {
        acts: &[
            Act::Closes(&[]),
            Act::Loop(&[3, 4, 9, 9, 9]),
            Act::Ask(Call::Open, DONE),
            Act::Renew(Row::Loop, 5),
            Act::Lay((1, 1, 1)),
        ],
        answer: Err((14, Layer::Plan)),
        times: UNWRITTEN,
    },
];

const ANSWERED: &[Case] = &[
    // an answer leaves the loop row, and places past the events
    Case {
        acts: &[Act::Ask(Call::Open, DONE), Act::Renew(Row::Answer, 7)],
        answer: Ok(0),
        times: &[Some(0), None, None, None, None, Some(8), Some(8)],
    },
    Case {
        acts: &[
            Act::Loop(&[9, 9, 9, 9, 9]),
            Act::Renew(Row::Answer, 5),
            Act::Ask(Call::Set(2, 1, 1), DONE),
            Act::Ask(Call::Set(2, 3, 4), DONE),
            Act::Ask(Call::Set(4, 1, 3), DONE),
            Act::Ask(Call::Set(4, 3, 1), DONE),
        ],
        answer: Ok(4),
        times: ALL_FREE,
    },
    // a lag to the start of a stage from its finish, on the way round: before that of the flow, the
    // same, and after it
    Case {
        acts: &[
            Act::Loop(&[9, 9, 9, 9, 9]),
            Act::Ask(Call::Set(1, 2, -5), DONE),
        ],
        answer: Ok(4),
        times: ALL_FREE,
    },
    Case {
        acts: &[Act::Ask(Call::Set(1, 2, -4), DONE)],
        answer: Ok(4),
        times: ALL_FREE,
    },
    Case {
        acts: &[Act::Ask(Call::Set(1, 2, -1), DONE)],
        answer: Ok(6),
        times: ALL_FREE,
    },
    // and beside it: stage 1 starts by 50, stage 2 takes 10
    Case {
        acts: &[
            Act::Ask(Call::Open, DONE),
            Act::Ask(Call::Set(0, 1, -50), DONE),
            Act::Ask(Call::Set(4, 3, 10), DONE),
            Act::Ask(Call::Set(1, 2, -12), DONE),
        ],
        answer: Ok(10),
        times: &[Some(0), Some(50), Some(60), None, None],
    },
    Case {
        acts: &[Act::Ask(Call::Set(1, 2, -10), DONE)],
        answer: Ok(10),
        times: &[Some(0), Some(50), Some(60), None, None],
    },
    Case {
        acts: &[Act::Ask(Call::Set(1, 2, -3), DONE)],
        answer: Ok(10),
        times: &[Some(0), Some(50), Some(53), None, None],
    },
    // a stage whose finish lies before its start counts as nought
    Case {
        acts: &[
            Act::Ask(Call::Drop(4, 3), DONE),
            Act::Ask(Call::Set(1, 2, 5), DONE),
        ],
        answer: Ok(0),
        times: &[Some(0), Some(50), Some(45), None, None],
    },
    // lags of every sort
    Case {
        acts: &[
            Act::Ask(Call::Open, DONE),
            Act::Ask(Call::Set(2, 1, 120), DONE),
            Act::Ask(Call::Set(3, 1, 30), DONE),
            Act::Ask(Call::Set(4, 2, 45), DONE),
            Act::Ask(Call::Set(4, 3, 90), DONE),
            Act::Ask(Call::Set(1, 0, 60), DONE),
            Act::Ask(Call::Set(0, 4, -300), DONE),
        ],
        answer: Ok(120),
        times: &[Some(0), Some(135), Some(255), Some(210), Some(300)],
    },
    // a refusal leaves the answer before it
    Case {
        acts: &[Act::Lay((2, 0, 290))],
        answer: Err((14, Layer::Plan)),
        times: &[Some(0), Some(135), Some(255), Some(210), Some(300)],
    },
    Case {
        acts: &[
            Act::Closes(&[]),
            Act::Loop(&[0, 2, 4, 9, 9]),
            Act::Ask(Call::Set(2, 0, 255), DONE),
        ],
        answer: Ok(120),
        times: &[Some(0), Some(135), Some(255), Some(210), Some(300)],
    },
];

const THREE_STAGES: &[Case] = &[Case {
    acts: &[
        Act::Ask(Call::Open, DONE),
        Act::Ask(Call::Set(2, 1, 2), DONE),
        Act::Ask(Call::Set(2, 3, 4), DONE),
        Act::Ask(Call::Set(2, 5, 4), DONE),
        Act::Ask(Call::Set(0, 2, -9), DONE),
        Act::Ask(Call::Set(4, 1, 2), DONE),
        Act::Ask(Call::Set(4, 3, 3), DONE),
        Act::Ask(Call::Set(4, 5, 5), DONE),
        Act::Ask(Call::Set(0, 4, -8), DONE),
        Act::Ask(Call::Set(6, 1, 3), DONE),
        Act::Ask(Call::Set(6, 3, 2), DONE),
        Act::Ask(Call::Set(6, 5, 3), DONE),
        Act::Ask(Call::Set(0, 6, -9), DONE),
    ],
    answer: Ok(4),
    times: &[
        Some(0),
        Some(4),
        Some(8),
        Some(4),
        Some(8),
        Some(3),
        Some(7),
    ],
}];

#[test]
fn flow_makes_its_checks(rt: HostRuntime) -> Result<(), Fail> {
    run_cases(&rt, &mut Trial::new(rt.alloc(), 2)?, Asked::Flow, REFUSED)
}

#[test]
fn flow_answers_the_cases(rt: HostRuntime) -> Result<(), Fail> {
    run_cases(&rt, &mut Trial::new(rt.alloc(), 2)?, Asked::Flow, ANSWERED)?;
    run_cases(
        &rt,
        &mut Trial::new(rt.alloc(), 3)?,
        Asked::Flow,
        THREE_STAGES,
    )
}

// The longest lag to each of 62 events from another, which one stage closes from its finish to its
// start.
const LONGEST: i64 = 1_000_000;

// The time of an event: every other one is bound from the opening back.
fn time_on_round(event: i64) -> i64 {
    match event {
        0 => 0,
        1 => -61 * LONGEST,
        2 => LONGEST,
        _ => event.saturating_sub(63).saturating_mul(LONGEST),
    }
}

#[test]
fn flow_goes_up_to_its_limit(rt: HostRuntime) -> Result<(), Fail> {
    let mut trial = Trial::<Minutes>::new(rt.alloc(), 31)?;
    trial.run(&rt, &[Act::Ask(Call::Open, DONE)])?;
    trial.lay(3, 1, LONGEST)?;
    for from in 3..62usize {
        trial.lay(from + 1, from, LONGEST)?;
    }
    trial.lay(0, 62, LONGEST)?;
    trial.lay(2, 0, LONGEST)?;
    assert_eq!(rt; trial.flow(), Ok(62_000_000));
    let times: Vec<Option<i64>> = (0..63)
        .map(|event| Some(time_on_round(event)))
        .collect(rt.alloc())?;
    assert!(rt; trial.has_times(&times));
    Ok(())
}
