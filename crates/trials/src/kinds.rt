// The kinds at the numbers where their answers change.
use marks::fault::{Layer, MarkFault};
use marks::kind::Mark;
use marks::minutes::Minutes;
use marks::stamps::Stamp;
use marks::turned::Turned;
use marks::twice::{add_turned_twice, order_turned_twice, take_turned_twice};
use std::cmp::Ordering;
use std::test::Fail;

fn total_of<K: Mark>(parts: &[i64]) -> Result<K, Fail> {
    Ok(K::make_total(parts).ok_or("no total")?)
}

fn lag_of<K: Mark>(parts: &[i64]) -> Result<K::Lag, Fail> {
    Ok(K::make_lag(parts)?)
}

#[test]
fn lags_end_at_their_limit(rt: HostRuntime) -> Result<(), Fail> {
    assert_eq!(rt;
        Minutes::lag_part(lag_of::<Minutes>(&[1_000_000])?, 0),
        Some(1_000_000)
    );
    assert!(rt; Minutes::make_lag(&[1_000_001]).is_err());
    assert!(rt; Minutes::make_lag(&[-1_000_001]).is_err());
    assert!(rt; Stamp::make_lag(&[0, 1_000_001]).is_err());
    Ok(())
}

#[test]
fn counts_of_parts_are_exact(rt: HostRuntime) {
    assert!(rt; Minutes::make_lag(&[]).is_err());
    assert!(rt; Minutes::make_lag(&[1, 2]).is_err());
    assert!(rt; Stamp::make_lag(&[1]).is_err());
    assert!(rt; Stamp::make_total(&[1, 2, 3]).is_none());
    assert!(rt; Turned::<Stamp>::make_total(&[0; 9]).is_none());
}

#[test]
fn totals_end_at_their_limit(rt: HostRuntime) -> Result<(), Fail> {
    assert_eq!(rt;
        total_of::<Minutes>(&[4_000_000_000])?.part(0),
        Some(4_000_000_000)
    );
    assert!(rt; Minutes::make_total(&[4_000_000_001]).is_none());
    assert!(rt; Stamp::make_total(&[0, -4_000_000_001]).is_none());
    assert_eq!(rt;
        total_of::<Turned<Minutes>>(&[-4_000_000_000])?.part(0),
        Some(-4_000_000_000)
    );
    assert!(rt; Turned::<Minutes>::make_total(&[i64::MIN]).is_none());
    Ok(())
}

#[test]
fn sums_past_the_limit_are_nothing(rt: HostRuntime) -> Result<(), Fail> {
    let most = total_of::<Minutes>(&[4_000_000_000])?;
    assert!(rt; most.add(lag_of::<Minutes>(&[1])?).is_none());
    assert!(rt; most.take(lag_of::<Minutes>(&[-1])?).is_none());
    let less = most.take(lag_of::<Minutes>(&[1])?).ok_or("no total")?;
    assert_eq!(rt; less.part(0), Some(3_999_999_999));
    assert!(rt;
        total_of::<Stamp>(&[0, 4_000_000_000])?
            .add(lag_of::<Stamp>(&[0, 1])?)
            .is_none()
    );
    Ok(())
}

#[test]
fn stamps_are_ordered_by_the_minute_first(rt: HostRuntime) -> Result<(), Fail> {
    assert_eq!(rt;
        total_of::<Stamp>(&[1, -1_000_000])?.order(total_of::<Stamp>(&[0, 0])?),
        Ordering::Greater
    );
    assert_eq!(rt;
        total_of::<Stamp>(&[0, 1])?.order(total_of::<Stamp>(&[0, 2])?),
        Ordering::Less
    );
    assert_eq!(rt;
        total_of::<Stamp>(&[7, 7])?.order(total_of::<Stamp>(&[7, 7])?),
        Ordering::Equal
    );
    Ok(())
}

#[test]
fn parts_are_counted_from_zero(rt: HostRuntime) -> Result<(), Fail> {
    let total = total_of::<Stamp>(&[5, 6])?;
    assert_eq!(rt; total.part(0), Some(5));
    assert_eq!(rt; total.part(1), Some(6));
    assert_eq!(rt; total.part(2), None);
    assert_eq!(rt; Stamp::zero().part(1), Some(0));
    assert_eq!(rt; total_of::<Minutes>(&[5])?.part(1), None);
    assert_eq!(rt; Turned::<Stamp>::WIDTH, 2);
    Ok(())
}

#[test]
fn turned_totals_add_and_order_by_their_meaning(rt: HostRuntime) -> Result<(), Fail> {
    let total = total_of::<Turned<Minutes>>(&[5])?;
    assert_eq!(rt; total.inner.part(0), Some(-5));
    let sum = total.add(lag_of::<Minutes>(&[2])?).ok_or("no total")?;
    assert_eq!(rt; sum.part(0), Some(7));
    let rest = total.take(lag_of::<Minutes>(&[2])?).ok_or("no total")?;
    assert_eq!(rt; rest.part(0), Some(3));
    assert_eq!(rt; total.order(sum), Ordering::Less);
    Ok(())
}

#[test]
fn turning_twice_changes_no_answer(rt: HostRuntime) -> Result<(), Fail> {
    let total = total_of::<Minutes>(&[5])?;
    let sum = add_turned_twice(total, lag_of::<Minutes>(&[2])?).ok_or("no total")?;
    assert_eq!(rt; sum.part(0), Some(7));
    let rest = take_turned_twice(total, lag_of::<Minutes>(&[2])?).ok_or("no total")?;
    assert_eq!(rt; rest.part(0), Some(3));
    assert_eq!(rt; order_turned_twice(total, sum), Ordering::Less);
    Ok(())
}

#[test]
fn faults_have_their_number_and_layer(rt: HostRuntime) {
    assert_eq!(rt; MarkFault::NoLag.number(), 10);
    assert_eq!(rt; MarkFault::NoLag.layer(), Layer::Mark);
}
