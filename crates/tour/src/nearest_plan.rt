// Due times that no starts meet: the starts that come closest.
use crate::shared::{set_lags, time};
use crate::show::{show_refusal, show_times};
use marks::minutes::Minutes;
use std::io;

const STAGES: usize = 2;

const EVENTS: usize = 5;

// Both finishes come at least 5 after both starts.
const LAGS: [(usize, usize, i64); 4] = [(2, 1, 5), (2, 3, 5), (4, 1, 5), (4, 3, 5)];

pub fn walk(rt: &HostRuntime) -> io::Result<()> {
    let mut table = [None; EVENTS * EVENTS];
    if let Err(fault) = plan::open::<Minutes>(STAGES, &mut table) {
        return show_refusal(rt, fault);
    }
    set_lags(rt, STAGES, &mut table, &LAGS)?;
    let due = [None, None, time(10), None, time(13)];
    let mut starts = [None; EVENTS];
    println!(rt; "the starts closest to the due times")?;
    show_times(rt, "due", &due, &[2, 4])?;
    match plan::closest(STAGES, &table, &due, &mut starts) {
        Ok(distance) => println!(rt; "  the largest distance is {distance}")?,
        Err(fault) => show_refusal(rt, fault)?,
    }
    show_times(rt, "starts", &starts, &[1, 3])
}
