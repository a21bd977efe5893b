// Where minutes and stamps part: lags whose minutes cancel and whose turns do not.
use crate::shared::set_lag;
use marks::minutes::Minutes;
use marks::stamps::Stamp;
use std::io;

const EVENTS: usize = 3;

fn walk_minutes(rt: &HostRuntime) -> io::Result<()> {
    let mut table = [None; EVENTS * EVENTS];
    let mut totals = [None; EVENTS];
    let mut next = [None; EVENTS];
    println!(rt; "a plan of one stage in minutes")?;
    for (to, from) in [(2, 1), (1, 2)] {
        println!(rt; "set 0 minutes to event {to} from event {from}")?;
        set_lag::<Minutes>(rt, 1, &mut table, to, from, &[0], &mut totals, &mut next)?;
    }
    Ok(())
}

fn walk_stamps(rt: &HostRuntime) -> io::Result<()> {
    let mut table = [None; EVENTS * EVENTS];
    let mut totals = [None; EVENTS];
    let mut next = [None; EVENTS];
    println!(rt; "a plan of one stage in stamps")?;
    for (to, from, minute, turn) in [
        (2, 1, 0, 1),
        (1, 2, 0, 0),
        (2, 2, 1, -1_000_000),
        (2, 2, -1, 1_000_000),
    ] {
        println!(rt; "set the stamp {minute}:{turn} to event {to} from event {from}")?;
        set_lag::<Stamp>(
            rt,
            1,
            &mut table,
            to,
            from,
            &[minute, turn],
            &mut totals,
            &mut next,
        )?;
    }
    Ok(())
}

pub fn walk(rt: &HostRuntime) -> io::Result<()> {
    walk_minutes(rt)?;
    walk_stamps(rt)
}
