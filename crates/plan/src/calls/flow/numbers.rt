// Rows of one part as numbers: the lag of a flow, and sums with it.
ghost use Rattle.std.specs.Prelude.{◌≡◌, ◌≤◌, Some};
ghost use Rattle.std.specs.Option.{option_map};
ghost use Rattle.marks.specs.Meaning.{TotalOf};
ghost use Rattle.plan.specs.FlowSteps.{lasting, less_flow};
ghost use Rattle.rows.specs.Limits.{flow_limit};
ghost use Rattle.rows.specs.MaxPlus.{later};
ghost use Rattle.rows.specs.Rows.{plus, Within};
ghost use Rattle.schedules.specs.Flows.{back_over_stage};

use marks::kind::Mark;

// Whether an event is the start of a stage and the other its finish.
pub(crate) fn is_back_over_stage(to: usize, from: usize) -> bool
    ensures { result ≡ back_over_stage to from }
{
    // no `to + 1`: it would wrap at the greatest number
    to % 2 == 1 && from > to && from - to == 1
}

// The lag of a flow, as a number.
pub(crate) fn opposite(flow: u64) -> i64
    requires { flow ≤ flow_limit }
    ensures { result ≡ less_flow flow }
{
    -(flow as i64)
}

// The later of a number, if there is one, and another.
pub(crate) fn later_number(one: Option<i64>, other: i64) -> i64
    ensures { Some (lasting result) ≡ later (option_map lasting one) (Some (lasting other)) }
{
    match one {
        Some(number) if number >= other => number,
        _ => other,
    }
}

// A total of one part plus a number of minutes, which may be more than a lag can have.
pub(crate) fn shifted<K: Mark>(total: K, minutes: i64) -> Option<K>
    requires one { K.Mark.WIDTH ≡ 1 }
    requires inside { Within flow_limit (lasting minutes) }
    ensures { TotalOf K.Mark.row (plus (K.Mark.row total) (lasting minutes)) result }
{
    let minute = total.part(0)?;
    K::make_total(&[minute + minutes])
}
