// Schedules of a plan: when there are any, and the least and the greatest time of each event.
#![tactic(auto)]

ghost use Rattle.schedules.specs.Firsts.{FirstsAreExact, KnownIsSchedule, RepairsStayLeast, FirstsStayInside};
ghost use Rattle.schedules.specs.FlowTheorems.{FlowsAreLags};
ghost use Rattle.schedules.specs.Theorems.{ScheduleOrLoop, TimesCombine, TimesAreExact, LatestAreExact, ReversalMirrors, SumsStayInside};

/// A plan has a schedule or a loop, and never both; totals that settle from everywhere at zero are
/// a schedule.
pub fn schedule_or_loop()
    ensures { ScheduleOrLoop }
{}

/// The later and the earlier of two times that keep the lags keep them, and so do times all shifted
/// alike.
pub fn times_combine()
    ensures { TimesCombine }
{}

/// Where some times keep the lags, rounds from any first totals settle, at the least of the times
/// that keep them and have no event before its first total. An event has a total exactly where a
/// chain reaches it from one that has a first total. Where all have one, they keep the lags.
pub fn firsts_are_exact()
    ensures exact { FirstsAreExact }
    ensures known { KnownIsSchedule }
{}

/// Where every event has a total: the least times from first totals, repaired over lags that ask
/// more, are the least times from the same first totals over those lags, and go no further than
/// rounds do.
pub fn repairs_stay_least()
    ensures { RepairsStayLeast }
{}

/// Of a plan that has a schedule, totals from the opening settle and are then the least times; an
/// event that they do not reach has none. In the plan with its lags the other way round they are
/// the greatest, with every sign changed.
pub fn times_are_exact()
    ensures least { TimesAreExact }
    ensures greatest { LatestAreExact }
{}

/// The greatest times are the least times of the plan with its lags the other way round, with every
/// sign changed, and the loops of that plan, read the other way round, are loops of this one.
pub fn reversal_mirrors()
    ensures { ReversalMirrors }
{}

/// So many rounds go no further than so many times the lags' limit past that of the first totals.
pub fn firsts_stay_inside()
    ensures { FirstsStayInside }
{}

/// So many rounds go no further than so many times the lags' limit, so that sums stay inside where
/// there is room for one lag more than events.
pub fn sums_stay_inside()
    ensures { SumsStayInside }
{}

/// For minutes: the schedules that end every stage within f are those of the plan with minus f put
/// to each start from its finish, where a later lag does not stand. So the flow is the least f with
/// which that plan has a schedule, and the greatest times within it are those of that plan.
pub fn flows_are_lags()
    ensures { FlowsAreLags }
{}
