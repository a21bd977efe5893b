// The script of a plan of four stages: set, earliest, latest and spread; the checks of set in
// order, and plans without a schedule.
use crate::shared::{Act, Answer, Call, DONE, EVENT, LOOP, NO_LAG, ROW, Row, STAGES, TABLE};

const UNWRITTEN: Act = Act::Times(&[Some(8); 9]);

pub(crate) const FOUR_STAGES: &[Act] = &[
    // starts pull each other
    Act::Ask(Call::Open, DONE),
    Act::AskAll(
        &[
            Call::Set(1, 3, -2),
            Call::Set(3, 5, 3),
            Call::Set(3, 7, -1),
            Call::Set(5, 1, -1),
            Call::Set(5, 7, -4),
            Call::Set(7, 1, 2),
            Call::Set(1, 0, 1),
            Call::Set(3, 0, 1),
            Call::Set(5, 0, 2),
            Call::Set(7, 0, 1),
        ],
        DONE,
    ),
    Act::Ask(Call::Earliest, DONE),
    Act::Times(&[
        Some(0),
        Some(3),
        None,
        Some(5),
        None,
        Some(2),
        None,
        Some(5),
        None,
    ]),
    // a table with a loop is refused, and the loop named
    Act::Ask(Call::Open, DONE),
    Act::Renew(Row::Answer, 9),
    Act::Lay((7, 3, 2)),
    Act::Lay((3, 7, -1)),
    Act::Ask(Call::Earliest, LOOP),
    UNWRITTEN,
    Act::Closes(&[]),
    Act::Loop(&[3, 7, 9, 9, 9, 9, 9, 9, 9]),
    Act::AskAll(&[Call::Set(2, 1, 5), Call::Latest, Call::Spread(1)], LOOP),
    UNWRITTEN,
    Act::Lags(&[(7, 3, 2), (3, 7, -1)]),
    // a refused set leaves the table
    Act::Ask(Call::Set(3, 7, -5), DONE),
    Act::Ask(Call::Set(3, 7, -1), LOOP),
    Act::Lags(&[(7, 3, 2), (3, 7, -5)]),
    Act::Ask(Call::Set(3, 7, -2), DONE),
    Act::Lags(&[(7, 3, 2), (3, 7, -2)]),
    // set makes its checks in order
    Act::Ask(Call::Open, DONE),
    Act::Renew(Row::Loop, 8),
    Act::Tell(32),
    Act::Ask(Call::SetParts(9, 0, &[]), STAGES),
    Act::Tell(3),
    Act::Ask(Call::SetParts(9, 0, &[]), TABLE),
    Act::Tell(4),
    Act::Ask(Call::SetParts(9, 0, &[]), ROW),
    Act::Renew(Row::Loop, 9),
    Act::Ask(Call::SetParts(9, 0, &[]), EVENT),
    Act::Ask(Call::SetParts(8, 0, &[]), NO_LAG),
    Act::Ask(Call::SetParts(8, 8, &[1, 2, 3]), NO_LAG),
    Act::Ask(Call::Set(8, 8, 1_000_001), NO_LAG),
    Act::Ask(Call::Set(8, 8, 1), LOOP),
    Act::Lags(&[]),
    // spread is free on an open side
    Act::Ask(Call::Set(3, 0, 5), DONE),
    Act::Ask(Call::Spread(3), Ok(Answer::Within(Some(5), None))),
    // latest goes back from the due time
    Act::Ask(Call::Open, DONE),
    Act::Renew(Row::Loop, 9),
    Act::Ask(Call::Set(2, 1, 120), DONE),
    Act::Ask(Call::Set(0, 2, -300), DONE),
    Act::Ask(Call::Latest, DONE),
    LATEST,
    Act::Lay((1, 0, 181)),
    Act::Ask(Call::Latest, LOOP),
    LATEST,
    Act::Closes(&[]),
    Act::Loop(&[0, 1, 2, 9, 9, 9, 9, 9, 9]),
    // and so do the others: the loop that each shows runs the way the lags do
    Act::Renew(Row::Loop, 9),
    Act::Ask(Call::Earliest, LOOP),
    Act::Closes(&[]),
    Act::Renew(Row::Loop, 9),
    Act::Ask(Call::Spread(3), LOOP),
    Act::Closes(&[]),
    Act::Ask(Call::Drop(1, 0), DONE),
    Act::Renew(Row::Loop, 9),
    Act::Ask(Call::Set(1, 0, 181), LOOP),
    Act::Closes(&[(1, 0, 181)]),
    Act::Lags(&[(2, 1, 120), (0, 2, -300)]),
];

const LATEST: Act = Act::Times(&[
    Some(0),
    Some(180),
    Some(300),
    None,
    None,
    None,
    None,
    None,
    None,
]);

// The minutes agree, and the turns decide.
pub(crate) const TURNS: &[Act] = &[
    Act::Ask(Call::Open, DONE),
    Act::Ask(Call::SetParts(2, 1, &[0]), NO_LAG),
    Act::Ask(Call::SetParts(2, 1, &[0, 1]), DONE),
    Act::Ask(Call::SetParts(1, 2, &[0, 0]), LOOP),
    Act::Loop(&[1, 2, 9]),
    Act::Ask(Call::SetParts(1, 2, &[0, -1]), DONE),
    Act::Ask(Call::SetParts(2, 2, &[1, -1_000_000]), LOOP),
    Act::Ask(Call::SetParts(2, 2, &[-1, 1_000_000]), DONE),
];
