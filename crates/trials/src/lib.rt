// Tests of the kinds of mark at the numbers where their answers change, of the planner's calls at
// worked values, and of each refusal. Beside them, proved of the definitions that the calls answer:
// the flows of worked plans.
#![tactic(auto)]

ghost use Rattle.trials.specs.WorkedFlows.{WorkedFlows};

#[cfg(test)]
mod flows;
#[cfg(test)]
mod kinds;
#[cfg(test)]
mod nearest;
#[cfg(test)]
mod numbers;
#[cfg(test)]
mod plans;
#[cfg(test)]
mod reading;
#[cfg(test)]
mod repairs;
#[cfg(test)]
mod scheduling;
#[cfg(test)]
mod scripts;
#[cfg(test)]
mod settling;
#[cfg(test)]
mod shared;

/// The flows of four plans, and the latest times within them: of the empty plan of any number of
/// stages, of two stages and of three given by their start-to-finish lags, and of two stages with
/// lags of every sort.
pub fn flows_work_out()
    ensures { WorkedFlows }
{}
