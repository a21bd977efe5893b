// closest, which is offered at minutes alone: worked values, a stage without a lag, the checks in
// order, and the limits.
use crate::numbers::{Asked, Case, run_cases};
use crate::shared::{Act, Call, DONE, Row, Trial};
use marks::fault::Layer;
use std::test::Fail;

const UNWRITTEN: &[Option<i64>] = &[Some(8), Some(8), Some(8), Some(8), Some(8)];

const CASES: &[Case] = &[
    // earlier checks come first
    Case {
        acts: &[
            Act::Ask(Call::Open, DONE),
            Act::Renew(Row::Answer, 4),
            Act::Tell(0),
        ],
        answer: Err((3, Layer::Plan)),
        times: &[Some(8), Some(8), Some(8), Some(8)],
    },
    Case {
        acts: &[Act::Tell(3)],
        answer: Err((4, Layer::Plan)),
        times: &[Some(8), Some(8), Some(8), Some(8)],
    },
    Case {
        acts: &[Act::Tell(2)],
        answer: Err((5, Layer::Plan)),
        times: &[Some(8), Some(8), Some(8), Some(8)],
    },
    Case {
        acts: &[Act::Renew(Row::Answer, 5), Act::Renew(Row::Given, 4)],
        answer: Err((5, Layer::Plan)),
        times: UNWRITTEN,
    },
    Case {
        acts: &[Act::Renew(Row::Given, 5)],
        answer: Err((12, Layer::Plan)),
        times: UNWRITTEN,
    },
    Case {
        acts: &[Act::Give(&[None, None, Some(10), None, Some(1_000_000_001)])],
        answer: Err((12, Layer::Plan)),
        times: UNWRITTEN,
    },
    Case {
        acts: &[Act::Give(&[None, None, Some(10), None, Some(13)])],
        answer: Err((13, Layer::Plan)),
        times: UNWRITTEN,
    },
    // every finish and every start wants a lag
    Case {
        acts: &[
            Act::Ask(Call::Set(2, 1, 5), DONE),
            Act::Ask(Call::Set(2, 3, 5), DONE),
        ],
        answer: Err((13, Layer::Plan)),
        times: UNWRITTEN,
    },
    Case {
        acts: &[
            Act::Ask(Call::Drop(2, 1), DONE),
            Act::Ask(Call::Set(4, 3, 5), DONE),
        ],
        answer: Err((13, Layer::Plan)),
        times: UNWRITTEN,
    },
    // the largest miss is halved
    Case {
        acts: &[
            Act::Ask(Call::Set(2, 1, 5), DONE),
            Act::Ask(Call::Set(4, 1, 5), DONE),
        ],
        answer: Ok(2),
        times: &[None, Some(7), None, Some(7), None],
    },
    // due times that can be met are met
    Case {
        acts: &[
            Act::Ask(Call::Open, DONE),
            Act::Renew(Row::Answer, 6),
            Act::Ask(Call::Set(2, 1, 5), DONE),
            Act::Ask(Call::Set(4, 3, -7), DONE),
        ],
        answer: Ok(0),
        times: &[None, Some(5), None, Some(20), None, Some(8)],
    },
    // numbers at the limits fit
    Case {
        acts: &[
            Act::Renew(Row::Answer, 5),
            Act::Ask(Call::Set(2, 1, -1_000_000), DONE),
            Act::Ask(Call::Set(4, 1, 1_000_000), DONE),
            Act::Ask(Call::Set(4, 3, 1_000_000), DONE),
            Act::Give(&[None, None, Some(1_000_000_000), None, Some(-1_000_000_000)]),
        ],
        answer: Ok(1_001_000_000),
        times: &[None, Some(0), None, Some(0), None],
    },
    Case {
        acts: &[
            Act::Ask(Call::Drop(4, 1), DONE),
            Act::Ask(Call::Set(4, 3, -1_000_000), DONE),
            Act::Give(&[None, None, Some(1_000_000_000), None, Some(1_000_000_000)]),
        ],
        answer: Ok(0),
        times: &[None, Some(1_001_000_000), None, Some(1_001_000_000), None],
    },
    Case {
        acts: &[
            Act::Ask(Call::Set(2, 1, 1_000_000), DONE),
            Act::Ask(Call::Set(4, 3, 1_000_000), DONE),
            Act::Give(&[None, None, Some(-1_000_000_000), None, Some(-1_000_000_000)]),
        ],
        answer: Ok(0),
        times: &[None, Some(-1_001_000_000), None, Some(-1_001_000_000), None],
    },
];

#[test]
fn closest_answers_the_cases(rt: HostRuntime) -> Result<(), Fail> {
    run_cases(&rt, &mut Trial::new(rt.alloc(), 2)?, Asked::Closest, CASES)
}
