// What the walks print.
ghost use Rattle.std.specs.Iterator.{IsFinite};

use marks::kind::Mark;
use marks::minutes::Minutes;
use plan::PlanFault;
use std::fmt::Display;
use std::{fmt, io};

// The minutes of a time, or that it is free.
#[derive(Clone, Copy)]
struct Shown(Option<Minutes>);

impl Display for Shown {
    fn fmt<W: fmt::Write>(&self, f: &mut fmt::Formatter<W>) -> fmt::Result {
        match self.0.and_then(|total| total.part(0)) {
            Some(minutes) => write!(f, "{minutes}"),
            None => f.write_str("free"),
        }
    }
}

// A heading and what follows it on the line.
pub fn show_line<I: Iterator + Drop>(
    rt: &HostRuntime,
    heading: impl Display + Drop,
    items: I,
) -> io::Result<()>
where
    I::Item: Display + Drop,
    requires can { I.can_next items }
    requires ends { IsFinite (I.remaining items) }
{
    print!(rt; "  {heading}:")?;
    for item in items {
        print!(rt; " {item}")?;
    }
    println!(rt; "")
}

pub fn show_times(
    rt: &HostRuntime,
    heading: &str,
    totals: &[Option<Minutes>],
    events: &[usize],
) -> io::Result<()> {
    show_line(
        rt,
        heading,
        events
            .iter()
            .map(|event| Shown(totals.get(*event).copied().flatten())),
    )
}

pub fn show_refusal(rt: &HostRuntime, fault: PlanFault) -> io::Result<()> {
    let number = fault.number();
    let layer = fault.layer();
    println!(rt; "  refused: check {number} of the {layer} layer")
}

pub fn show_outcome(rt: &HostRuntime, outcome: Result<(), PlanFault>) -> io::Result<()> {
    match outcome {
        Ok(()) => println!(rt; "  done"),
        Err(fault) => show_refusal(rt, fault),
    }
}

// How a set ended, with the loop under 14.
pub fn show_set(
    rt: &HostRuntime,
    outcome: Result<(), PlanFault>,
    loop_row: &[usize],
) -> io::Result<()> {
    show_outcome(rt, outcome)?;
    if let Err(PlanFault::Loop(len)) = outcome {
        show_line(rt, "loop", loop_row.iter().take(len))?;
    }
    Ok(())
}
