//! When a connection is late or slow, and that its first cause stays.

use crate::checks::{same, same_at};
use crate::texts::MORNING;
use connection_core::{Connection, LOGON_WAIT, MOST_WAITING};
use resend_plan::WireItem;
use session_core::Cause;
use std::test::Fail;

#[test]
fn an_accepted_one_is_late_after_ten_seconds(rt: HostRuntime) -> Result<(), Fail> {
    let accepted = Connection::accepted(rt.alloc(), 4, MORNING)?;
    for (moment, late) in [
        (0, false),
        (MORNING, false),
        (MORNING + 9_999, false),
        (MORNING + 10_000, true),
        (u64::MAX, true),
    ] {
        same_at(&rt, &accepted.is_late(moment), &late, &moment);
    }
    let mut bound = Connection::accepted(rt.alloc(), 5, MORNING)?;
    bound.bind(0);
    assert!(rt; !bound.is_late(MORNING + LOGON_WAIT));
    let dialled = Connection::dialled(rt.alloc(), 6, MORNING, 0)?;
    assert!(rt; !dialled.is_late(MORNING + LOGON_WAIT));
    Ok(())
}

#[test]
fn a_new_one_tells_what_it_was_made_of(rt: HostRuntime) -> Result<(), Fail> {
    let accepted = Connection::accepted(rt.alloc(), 4, MORNING)?;
    same(&rt, &accepted.number(), &4);
    same(&rt, &accepted.since(), &MORNING);
    same(&rt, &accepted.session(), &None);
    assert!(rt; !accepted.is_dialled() && !accepted.has_ended());
    let dialled = Connection::dialled(rt.alloc(), 5, MORNING, 9)?;
    same(&rt, &dialled.session(), &Some(9));
    assert!(rt; dialled.is_dialled() && !dialled.has_ended());
    Ok(())
}

#[test]
fn one_is_slow_above_the_limit(rt: HostRuntime) -> Result<(), Fail> {
    let mut connection = Connection::accepted(rt.alloc(), 0, MORNING)?;
    let item = WireItem::GapFill {
        series: 1,
        number: 1,
        to: 2,
        at: MORNING,
    };
    let items = vec![in rt.alloc(); item; MOST_WAITING as usize]?;
    let out = connection.outbox();
    out.reserve(items.len())?;
    out.queue_all(&items);
    same(&rt, &connection.slow_cause(), &None);
    let out = connection.outbox();
    out.reserve(1)?;
    out.queue(item);
    let waiting = 1_048_577;
    same(
        &rt,
        &connection.slow_cause(),
        &Some(Cause::SlowConsumer { waiting }),
    );
    same(&rt, &connection.waiting_items(), &waiting);
    Ok(())
}

#[test]
fn the_first_cause_stays(rt: HostRuntime) -> Result<(), Fail> {
    let mut connection = Connection::accepted(rt.alloc(), 0, MORNING)?;
    connection.end(Cause::NotLogon);
    connection.end(Cause::ReadFault);
    same(&rt, &connection.cause(), &Some(Cause::NotLogon));
    assert!(rt; connection.has_ended());
    Ok(())
}
