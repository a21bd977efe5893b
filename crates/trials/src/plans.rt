// The script of a plan of two stages: sums and differences, chains, edits, and each check of sizes,
// events and given totals.
use crate::shared::{Act, Answer, Call, DONE, EVENT, ROW, Row, STAGES, TABLE, TOTAL};
use marks::fault::Layer;
use marks::kind::Mark;
use marks::minutes::Minutes;
use plan::PlanFault;
use std::test::Fail;

// Each call, at an event and a stage that are not there.
const CALLS: &[Call] = &[
    Call::Open,
    Call::Set(9, 9, 0),
    Call::Drop(9, 9),
    Call::Void(9),
    Call::Check,
    Call::Waiting(9),
    Call::Finish,
    Call::Backward,
    Call::Earliest,
    Call::Latest,
    Call::Spread(9),
];

// Those that read given totals, those that write a row of answers, those that look for a loop, and
// those that turn the plan round.
const READING: &[Call] = &[Call::Check, Call::Finish, Call::Backward];

const WRITING: &[Call] = &[Call::Finish, Call::Backward, Call::Earliest, Call::Latest];

const SOLVING: &[Call] = &[
    Call::Set(9, 9, 0),
    Call::Earliest,
    Call::Latest,
    Call::Spread(9),
];

const TURNING: &[Call] = &[Call::Latest, Call::Spread(9)];

const UNWRITTEN: Act = Act::Times(&[Some(8), Some(8), Some(8), Some(8), Some(8)]);

pub(crate) const TWO_STAGES: &[Act] = &[
    // the first finish hangs on both starts, the second on its own; stage 2 starts at least 3 after
    // stage 1
    Act::Ask(Call::Open, DONE),
    Act::Lags(&[]),
    Act::Ask(Call::Set(2, 1, 5), DONE),
    Act::Ask(Call::Set(2, 3, -2), DONE),
    Act::Ask(Call::Set(4, 3, 7), DONE),
    Act::Ask(Call::Set(3, 1, 3), DONE),
    Act::Lags(&[(2, 1, 5), (2, 3, -2), (4, 3, 7), (3, 1, 3)]),
    // finish takes the latest sum
    Act::Give(&[None, Some(10), None, Some(30), None]),
    UNWRITTEN,
    Act::Ask(Call::Finish, DONE),
    Act::Times(&[None, None, Some(28), None, Some(37)]),
    // places past the events are kept
    Act::Renew(Row::Answer, 7),
    Act::Ask(Call::Finish, DONE),
    Act::Times(&[None, None, Some(28), None, Some(37), Some(8), Some(8)]),
    // backward takes the earliest difference
    Act::Renew(Row::Answer, 5),
    Act::Give(&[None, None, Some(20), None, Some(40)]),
    Act::Ask(Call::Backward, DONE),
    Act::Times(&[None, Some(15), None, Some(22), None]),
    // check names the first broken lag
    Act::Give(&[Some(0), Some(10), Some(15), Some(13), Some(20)]),
    Act::Ask(Call::Check, Ok(Answer::Broken(None))),
    Act::Give(&[Some(0), Some(10), Some(14), Some(12), Some(18)]),
    Act::Ask(Call::Check, Ok(Answer::Broken(Some((2, 1))))),
    // given totals are checked
    Act::Renew(Row::Answer, 5),
    Act::Give(&[None, None, None, None, None]),
    Act::AskAll(READING, TOTAL),
    Act::Give(&[None, Some(1_000_000_001), None, Some(0), None]),
    Act::Ask(Call::Finish, TOTAL),
    Act::Give(&[None, Some(1_000_000_000), None, Some(-1_000_000_000), None]),
    Act::Ask(Call::Backward, TOTAL),
    Act::Ask(Call::Check, TOTAL),
    UNWRITTEN,
    Act::Ask(Call::Finish, DONE),
    Act::Times(&[None, None, Some(1_000_000_005), None, Some(-999_999_993)]),
    // waiting follows chains
    Act::Ask(Call::Waiting(1), Ok(Answer::Waits(0b11100, 3))),
    Act::Ask(Call::Waiting(3), Ok(Answer::Waits(0b10100, 2))),
    Act::Ask(Call::Set(1, 4, -50), DONE),
    Act::Ask(Call::Waiting(4), Ok(Answer::Waits(0b01110, 3))),
    Act::Ask(Call::Drop(1, 4), DONE),
    // stages and tables are checked before all else
    Act::Tell(0),
    Act::AskAll(CALLS, STAGES),
    Act::Tell(32),
    Act::AskAll(CALLS, STAGES),
    Act::Tell(1),
    Act::AskAll(CALLS, TABLE),
    Act::Tell(3),
    Act::AskAll(CALLS, TABLE),
    Act::Tell(2),
    // rows are checked before events
    Act::Renew(Row::Given, 4),
    Act::AskAll(READING, ROW),
    Act::Renew(Row::Given, 5),
    Act::Renew(Row::Answer, 4),
    Act::AskAll(WRITING, ROW),
    Act::Times(&[Some(8), Some(8), Some(8), Some(8)]),
    Act::Renew(Row::Answer, 5),
    Act::Renew(Row::Totals, 4),
    Act::AskAll(SOLVING, ROW),
    Act::Renew(Row::Totals, 5),
    Act::Renew(Row::Next, 4),
    Act::AskAll(SOLVING, ROW),
    Act::Renew(Row::Next, 5),
    Act::Renew(Row::Loop, 4),
    Act::AskAll(SOLVING, ROW),
    Act::Renew(Row::Loop, 5),
    Act::Renew(Row::Turned, 4),
    Act::AskAll(TURNING, ROW),
    Act::Renew(Row::Turned, 5),
    Act::Renew(Row::TurnedNext, 4),
    Act::AskAll(TURNING, ROW),
    Act::Renew(Row::TurnedNext, 5),
    UNWRITTEN,
    // events and stages are checked
    Act::AskAll(
        &[
            Call::Set(5, 0, 0),
            Call::Set(0, 5, 0),
            Call::Drop(5, 0),
            Call::Drop(0, 5),
            Call::Void(0),
            Call::Void(3),
            Call::Waiting(5),
            Call::Spread(5),
        ],
        EVENT,
    ),
    Act::Lags(&[(2, 1, 5), (2, 3, -2), (4, 3, 7), (3, 1, 3)]),
    // a start without lags is free
    Act::Ask(Call::Drop(2, 1), DONE),
    Act::Lags(&[(2, 3, -2), (4, 3, 7), (3, 1, 3)]),
    Act::Give(&[None, None, Some(20), None, Some(40)]),
    Act::Ask(Call::Backward, DONE),
    Act::Times(&[None, None, None, Some(22), None]),
    // void clears rows and columns
    Act::Ask(Call::Set(2, 1, 5), DONE),
    Act::Ask(Call::Void(2), DONE),
    Act::Lags(&[(2, 1, 5)]),
];

pub(crate) const MANY_STAGES: &[Act] = &[Act::Ask(Call::Open, DONE), Act::Lags(&[])];

#[test]
fn faults_name_their_layer(rt: HostRuntime) -> Result<(), Fail> {
    assert_eq!(rt; PlanFault::Stages.layer(), Layer::Plan);
    let inner = Minutes::make_lag(&[1, 2])
        .err()
        .ok_or("two numbers made a lag")?;
    assert_eq!(rt; PlanFault::Mark(inner).number(), 10);
    assert_eq!(rt; PlanFault::Mark(inner).layer(), Layer::Mark);
    Ok(())
}
