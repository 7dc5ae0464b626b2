//! What is written on a connection, and what waits.

use crate::checks::same;
use crate::steps::Step::{Answer, End, Push, Queue, TurnOver, Waits, Wrote};
use crate::steps::{Step, follow, follow_dialled};
use crate::texts::{MORNING, is_text};
use connection_core::MOST_WRITTEN;
use resend_plan::WireItem;
use session_core::Cause;
use std::test::Fail;

/// The texts of a Logon and two reports, of 86, 79 and 79 bytes.
const LOGON: &str =
    "8=FIX.4.4|9=64|35=A|49=GATE|56=BUYER|34=1|52=20260105-09:30:00.000|98=0|108=30|10=148|";

const FIRST: &str =
    "8=FIX.4.4|9=57|35=8|49=GATE|56=BUYER|34=2|52=20260105-09:30:00.000|37=1|10=078|";

const BOTH: &str =
    "8=FIX.4.4|9=57|35=8|49=GATE|56=BUYER|34=2|52=20260105-09:30:00.000|37=1|10=078|8=FIX.4.4|9=57|35=8|49=GATE|56=BUYER|34=3|52=20260105-09:30:00.000|37=2|10=080|";

const ALL: &str =
    "8=FIX.4.4|9=64|35=A|49=GATE|56=BUYER|34=1|52=20260105-09:30:00.000|98=0|108=30|10=148|8=FIX.4.4|9=57|35=8|49=GATE|56=BUYER|34=2|52=20260105-09:30:00.000|37=1|10=078|8=FIX.4.4|9=57|35=8|49=GATE|56=BUYER|34=3|52=20260105-09:30:00.000|37=2|10=080|";

const PUSH_LOGON: Step = Push(true, "35=A|98=0|108=30|");

const PUSH_FIRST: Step = Push(false, "35=8|37=1|");

const PUSH_SECOND: Step = Push(false, "35=8|37=2|");

fn queue(series: u32, number: u64) -> Step {
    Queue(WireItem::New { series, number })
}

#[test]
fn an_item_waits_until_it_is_written_whole(rt: HostRuntime) -> Result<(), Fail> {
    let steps = [
        PUSH_LOGON,
        PUSH_FIRST,
        PUSH_SECOND,
        queue(1, 1),
        queue(1, 2),
        queue(1, 3),
        Wrote(9, 3),
        Waits(MOST_WRITTEN, ALL),
        Wrote(0, 3),
        Wrote(1, 3),
        Wrote(84, 3),
        Wrote(1, 2),
        Waits(MOST_WRITTEN, BOTH),
        Wrote(78, 2),
        Wrote(2, 1),
        Wrote(77, 1),
        Wrote(1, 0),
        Waits(MOST_WRITTEN, ""),
        Wrote(1, 0),
    ];
    let record = follow(&rt, rt.alloc(), &steps)?;
    assert!(rt; is_text(record.written.as_slice(), ALL));
    Ok(())
}

#[test]
fn no_more_waits_than_the_limit(rt: HostRuntime) -> Result<(), Fail> {
    let steps = [
        PUSH_LOGON,
        PUSH_FIRST,
        PUSH_SECOND,
        queue(1, 1),
        queue(1, 2),
        queue(1, 3),
        Waits(0, ""),
        Waits(9, "8=FIX.4.4"),
        Waits(86, LOGON),
        Wrote(79, 3),
        // The Logon's last 7 bytes wait, and are fewer than 8.
        Waits(8, "10=148|8"),
        Wrote(8, 2),
        Waits(
            MOST_WRITTEN,
            "=FIX.4.4|9=57|35=8|49=GATE|56=BUYER|34=2|52=20260105-09:30:00.000|37=1|10=078|8=FIX.4.4|9=57|35=8|49=GATE|56=BUYER|34=3|52=20260105-09:30:00.000|37=2|10=080|",
        ),
        End(Cause::WriteFault),
        End(Cause::End),
    ];
    let record = follow(&rt, rt.alloc(), &steps)?;
    // What waits at the end isn't in the record.
    same(&rt, &record.written.as_slice().len(), &87);
    same(&rt, &record.cause, &Some(Cause::WriteFault));
    Ok(())
}

#[test]
fn a_dialled_one_writes_its_first_item_alone(rt: HostRuntime) -> Result<(), Fail> {
    let steps = [
        PUSH_LOGON,
        PUSH_FIRST,
        PUSH_SECOND,
        Waits(MOST_WRITTEN, ""),
        queue(1, 1),
        queue(1, 2),
        Waits(MOST_WRITTEN, LOGON),
        queue(1, 3),
        Wrote(40, 3),
        Waits(
            MOST_WRITTEN,
            "1|52=20260105-09:30:00.000|98=0|108=30|10=148|",
        ),
        Wrote(46, 2),
        Waits(MOST_WRITTEN, ""),
        Answer,
        Waits(MOST_WRITTEN, BOTH),
        Wrote(200, 0),
    ];
    let record = follow_dialled(&rt, rt.alloc(), &steps)?;
    assert!(rt; is_text(record.written.as_slice(), ALL));
    same(&rt, &record.session, &Some(3));
    Ok(())
}

#[test]
fn a_past_series_item_keeps_its_text(rt: HostRuntime) -> Result<(), Fail> {
    let steps = [
        PUSH_LOGON,
        PUSH_FIRST,
        queue(1, 1),
        queue(1, 2),
        Waits(1, "8"),
        Wrote(86, 1),
        TurnOver,
        Push(true, "35=A|98=0|108=30|141=Y|"),
        queue(2, 1),
        Waits(
            MOST_WRITTEN,
            "8=FIX.4.4|9=57|35=8|49=GATE|56=BUYER|34=2|52=20260105-09:30:00.000|37=1|10=078|8=FIX.4.4|9=70|35=A|49=GATE|56=BUYER|34=1|52=20260105-09:30:00.000|98=0|108=30|141=Y|10=190|",
        ),
    ];
    follow(&rt, rt.alloc(), &steps)?;
    Ok(())
}

#[test]
fn a_plans_items_keep_their_text_as_the_log_grows(rt: HostRuntime) -> Result<(), Fail> {
    let at = MORNING + 60_000;
    let (series, number, to) = (1, 1, 2);
    let steps = [
        PUSH_LOGON,
        PUSH_FIRST,
        Queue(WireItem::GapFill {
            series,
            number,
            to,
            at,
        }),
        Queue(WireItem::Again {
            series,
            number: 2,
            at,
        }),
        PUSH_SECOND,
        TurnOver,
        Push(true, "35=A|98=0|108=30|141=Y|"),
        Waits(
            MOST_WRITTEN,
            "8=FIX.4.4|9=94|35=4|49=GATE|56=BUYER|34=1|43=Y|52=20260105-09:31:00.000|122=20260105-09:31:00.000|123=Y|36=2|10=101|8=FIX.4.4|9=88|35=8|49=GATE|56=BUYER|34=2|43=Y|52=20260105-09:31:00.000|122=20260105-09:30:00.000|37=1|10=063|",
        ),
    ];
    follow(&rt, rt.alloc(), &steps)?;
    Ok(())
}
