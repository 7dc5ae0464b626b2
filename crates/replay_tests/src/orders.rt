//! A Logon and two orders as bytes, and the report of a run in which so many of them come before the input ends.

use anyhow::Result;
use std::alloc::Global;
use std::fmt::Write;

/// The frames of BUYER's Logon and of its two orders.
pub(crate) const FRAMES: &str =
    "8=FIX.4.4|9=64|35=A|49=BUYER|56=GATE|34=1|52=20260105-09:30:00.000|98=0|108=30|10=148|\
    8=FIX.4.4|9=58|35=D|49=BUYER|56=GATE|34=2|52=20260105-09:30:00.000|11=A1|10=148|\
    8=FIX.4.4|9=58|35=D|49=BUYER|56=GATE|34=3|52=20260105-09:30:00.000|11=A2|10=150|";

/// How many bytes have come once the Logon is whole, and then each of the orders.
const LOGON: usize = 86;

const FIRST_ORDER: usize = 166;

const SECOND_ORDER: usize = 246;

/// A line that a report has where at least so many bytes came.
type Line = (usize, &'static str);

const ENTRIES: [Line; 5] = [
    (LOGON, " bind 0\n"),
    (LOGON, " admin 1\n"),
    (FIRST_ORDER, " arrive 0\n"),
    (SECOND_ORDER, " arrive 1\n"),
    (LOGON, " leave 0\n"),
];

const LOGS: [Line; 3] = [
    (
        FIRST_ORDER,
        " in 0 35=D|49=BUYER|56=GATE|34=2|52=20260105-09:30:00.000|11=A1|\n",
    ),
    (
        SECOND_ORDER,
        " in 1 35=D|49=BUYER|56=GATE|34=3|52=20260105-09:30:00.000|11=A2|\n",
    ),
    (LOGON, " out 1 20260105-09:30:00.000 35=A|98=0|108=30|\n"),
];

const WROTE: [Line; 1] = [(
    LOGON,
    " wrote 8=FIX.4.4|9=64|35=A|49=GATE|56=BUYER|34=1|52=20260105-09:30:00.000|98=0|108=30|10=148|\n",
)];

fn put_lines(out: &mut String, lines: &[Line], came: usize) -> Result<()> {
    for (from, line) in lines {
        if came >= *from {
            out.push_str(line)?;
        }
    }
    Ok(())
}

/// The report of a run with one library that does nothing, in which the first so many of the bytes came, and
/// then the input ended: the Logon is answered once it is whole, and each order is accepted once it is.
pub(crate) fn expected_report(alloc: Global, came: usize) -> Result<String> {
    let orders = u8::from(came >= FIRST_ORDER) + u8::from(came >= SECOND_ORDER);
    let (session, numbers, written) = if came >= LOGON {
        ("0", 1, LOGON)
    } else {
        ("-", 0, 0)
    };
    let mut out = String::new(alloc);
    writeln!(
        out,
        "fixgate report 1\nsession 0 GATE BUYER owner 0 lease 0 in {orders} out {numbers}"
    )?;
    put_lines(&mut out, &ENTRIES, came)?;
    writeln!(out, " holding 0 0 from 0 start 0 end {orders} sends 0")?;
    put_lines(&mut out, &LOGS, came)?;
    writeln!(
        out,
        "connection 0 session {session} taken {came} garbled 0 written {written} cause end"
    )?;
    put_lines(&mut out, &WROTE, came)?;
    out.push_str("library 1 reads 0\nend\n")?;
    Ok(out)
}
