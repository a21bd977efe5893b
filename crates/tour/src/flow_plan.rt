// A plan of three stages by its start-to-finish lags and due times: its flow.
use crate::shared::{set_lags, show_flow};
use crate::show::show_refusal;
use marks::minutes::Minutes;
use std::io;

const STAGES: usize = 3;

const EVENTS: usize = 7;

// To, from, minutes: how long after each start a finish comes, and by when it is due.
const LAGS: [(usize, usize, i64); 12] = [
    (2, 1, 2),
    (2, 3, 4),
    (2, 5, 4),
    (0, 2, -9),
    (4, 1, 2),
    (4, 3, 3),
    (4, 5, 5),
    (0, 4, -8),
    (6, 1, 3),
    (6, 3, 2),
    (6, 5, 3),
    (0, 6, -9),
];

pub fn walk(rt: &HostRuntime) -> io::Result<()> {
    let mut table = [None; EVENTS * EVENTS];
    if let Err(fault) = plan::open::<Minutes>(STAGES, &mut table) {
        return show_refusal(rt, fault);
    }
    set_lags(rt, STAGES, &mut table, &LAGS)?;
    println!(rt; "the flow of three stages due by 9, 8 and 9, and their starts")?;
    show_flow(rt, STAGES, &table, &[1, 3, 5])
}
