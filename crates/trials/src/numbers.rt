// The calls that are offered at minutes alone, each of which answers a number, and cases of them.
use crate::shared::{Act, Missed, Trial};
use marks::minutes::Minutes;
use std::process::Abort;
use std::test::Fail;

#[derive(Clone, Copy, Debug)]
pub(crate) enum Asked {
    Closest,
    Flow,
}

// What is done first, what the call then answers, and the whole row of answers afterwards.
#[derive(Clone, Copy, Debug)]
pub(crate) struct Case {
    pub acts: &'static [Act],
    pub answer: Result<u64, Missed>,
    pub times: &'static [Option<i64>],
}

fn ask(trial: &mut Trial<Minutes>, asked: Asked) -> Result<u64, Missed> {
    match asked {
        Asked::Closest => trial.closest(),
        Asked::Flow => trial.flow(),
    }
}

pub(crate) fn run_cases(
    rt: &impl Abort,
    trial: &mut Trial<Minutes>,
    asked: Asked,
    cases: &[Case],
) -> Result<(), Fail> {
    for case in cases {
        trial.run(rt, case.acts)?;
        assert_eq!(rt; ask(trial, asked), case.answer, "{case:?}");
        assert!(rt; trial.has_times(case.times), "{case:?}");
    }
    Ok(())
}
