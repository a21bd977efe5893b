// Every call but closest and flow at each kind of mark: scripts with the same answers at all of
// them.
use crate::plans::{MANY_STAGES, TWO_STAGES};
use crate::scheduling::{FOUR_STAGES, TURNS};
use crate::shared::Trial;
use marks::kind::Mark;
use marks::minutes::Minutes;
use marks::stamps::Stamp;
use marks::turned::Turned;
use std::alloc::Global;
use std::process::Abort;
use std::test::Fail;

fn run_scripts<K: Mark>(rt: &impl Abort, alloc: Global) -> Result<(), Fail> {
    Trial::<K>::new(alloc, 2)?.run(rt, TWO_STAGES)?;
    Trial::<K>::new(alloc, 4)?.run(rt, FOUR_STAGES)?;
    Trial::<K>::new(alloc, 31)?.run(rt, MANY_STAGES)
}

#[test]
fn minutes_answer_the_scripts(rt: HostRuntime) -> Result<(), Fail> {
    run_scripts::<Minutes>(&rt, rt.alloc())
}

#[test]
fn stamps_answer_the_scripts(rt: HostRuntime) -> Result<(), Fail> {
    run_scripts::<Stamp>(&rt, rt.alloc())?;
    Trial::<Stamp>::new(rt.alloc(), 1)?.run(&rt, TURNS)
}

#[test]
fn turned_stamps_answer_the_scripts(rt: HostRuntime) -> Result<(), Fail> {
    run_scripts::<Turned<Stamp>>(&rt, rt.alloc())?;
    Trial::<Turned<Stamp>>::new(rt.alloc(), 1)?.run(&rt, TURNS)
}
