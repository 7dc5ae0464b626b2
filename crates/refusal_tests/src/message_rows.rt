//! Rows of the connection, and of what comes on it and of the clock.

use crate::desk::Desk;
use crate::events::Event;
use crate::events::Event::{
    Bind, Dial, Garbled, Good, Leave, Prepare, Receive, Take, TakeFrame, Tick,
};
use crate::rows::Row;
use crate::states::{NEW, ON, SENT, State};
use std::test::Fail;

const LOGON_TEXT: &str = "35=A|(1)98=0|108=30|";

const LOGON: Event = Bind(LOGON_TEXT);

/// Bytes that come, are cut, and are made of what waits.
const CONNECTION: [Row; 5] = [
    Row {
        name: "a frame comes",
        before: &[],
        event: TakeFrame(LOGON_TEXT),
        states: &[NEW, State { held: 86, ..NEW }],
    },
    Row {
        name: "a frame comes behind another",
        before: &[TakeFrame(LOGON_TEXT)],
        event: TakeFrame(LOGON_TEXT),
        states: &[State { held: 86, ..NEW }, State { held: 172, ..NEW }],
    },
    Row {
        name: "a message is cut",
        before: &[TakeFrame(LOGON_TEXT)],
        event: Good(LOGON_TEXT),
        states: &[State { held: 86, ..NEW }, NEW],
    },
    Row {
        name: "a garbled byte is cut",
        before: &[Take("x8=FIX.4.4|")],
        event: Garbled(1),
        states: &[State { held: 10, ..NEW }],
    },
    Row {
        name: "texts are made",
        before: &[LOGON, Receive("35=1|(2)112=T1|")],
        event: Prepare(
            "8=FIX.4.4|9=64|35=A|49=GATE|56=BUYER|34=1|52=20260105-09:30:00.000|98=0|108=30|10=148|8=FIX.4.4|9=59|35=0|49=GATE|56=BUYER|34=2|52=20260105-09:30:00.000|112=T1|10=198|",
        ),
        states: &[
            State {
                expected: 3,
                ..SENT
            },
            State {
                text: 86,
                expected: 3,
                ..SENT
            },
            State {
                text: 167,
                expected: 3,
                ..SENT
            },
        ],
    },
];

#[test]
fn bytes_and_texts(rt: HostRuntime) -> Result<(), Fail> {
    for row in CONNECTION {
        let desk = Desk::accepting(rt.alloc());
        assert!(rt; row.holds(rt.alloc(), desk), "{}", row.name);
    }
    Ok(())
}

/// Messages that come, and what the clock asks.
const MESSAGES: [Row; 13] = [
    Row {
        name: "a Logon binds",
        before: &[],
        event: LOGON,
        states: &[
            NEW,
            State {
                entries: 1,
                expected: 2,
                ..NEW
            },
            ON,
        ],
    },
    // The numbers begin again.
    Row {
        name: "the numbers begin again",
        before: &[LOGON, Leave],
        event: Bind("35=A|(1)98=0|108=30|141=Y|"),
        states: &[
            State { entries: 3, ..ON },
            State { entries: 4, ..ON },
            State {
                entries: 5,
                series: 2,
                outbound: 0,
                ..ON
            },
            State {
                entries: 6,
                series: 2,
                waiting: 2,
                ..ON
            },
        ],
    },
    Row {
        name: "an order is accepted",
        before: &[LOGON],
        event: Receive("35=D|(2)11=A1|"),
        states: &[
            ON,
            State { expected: 3, ..ON },
            State {
                entries: 3,
                inbound: 1,
                expected: 3,
                ..ON
            },
        ],
    },
    // A TestRequest is answered by a Heartbeat.
    Row {
        name: "a TestRequest is answered",
        before: &[LOGON],
        event: Receive("35=1|(2)112=T1|"),
        states: &[
            ON,
            State { expected: 3, ..ON },
            State {
                expected: 3,
                ..SENT
            },
        ],
    },
    // A gap is asked for, and the message held.
    Row {
        name: "a gap is asked for",
        before: &[LOGON],
        event: Receive("35=D|(3)11=A2|"),
        states: &[ON, SENT],
    },
    // The gap is filled, and what was held is accepted behind it.
    Row {
        name: "a gap is filled",
        before: &[LOGON, Receive("35=D|(3)11=A2|")],
        event: Receive("35=D|(2)43=Y|11=A1|"),
        states: &[
            SENT,
            State {
                expected: 4,
                ..SENT
            },
            State {
                entries: 4,
                inbound: 1,
                expected: 4,
                ..SENT
            },
            State {
                entries: 5,
                inbound: 2,
                expected: 4,
                ..SENT
            },
        ],
    },
    // What was sent is asked for again: one gap fill answers.
    Row {
        name: "a gap fill answers",
        before: &[LOGON],
        event: Receive("35=2|(2)7=1|16=0|"),
        states: &[
            ON,
            State { expected: 3, ..ON },
            State {
                entries: 3,
                expected: 3,
                waiting: 2,
                ..ON
            },
        ],
    },
    Row {
        name: "a Logout is answered",
        before: &[LOGON],
        event: Receive("35=5|(2)"),
        states: &[
            ON,
            State { expected: 3, ..ON },
            State {
                expected: 3,
                ..SENT
            },
        ],
    },
    // A Reject, and a Logout behind it.
    Row {
        name: "a Reject and a Logout",
        before: &[LOGON],
        event: Receive("35=D|49=OTHER|56=GATE|34=2|"),
        states: &[
            ON,
            State { expected: 3, ..ON },
            State {
                expected: 3,
                ..SENT
            },
            State {
                entries: 4,
                outbound: 3,
                expected: 3,
                waiting: 3,
                ..ON
            },
        ],
    },
    // A Heartbeat is due, then a TestRequest. A moment before nothing is, and no memory is taken.
    Row {
        name: "a Heartbeat is due",
        before: &[LOGON],
        event: Tick(30_000),
        states: &[ON, SENT],
    },
    Row {
        name: "a TestRequest is due",
        before: &[LOGON, Tick(30_000)],
        event: Tick(36_000),
        states: &[
            SENT,
            State {
                entries: 4,
                outbound: 3,
                waiting: 3,
                ..ON
            },
        ],
    },
    Row {
        name: "nothing is due",
        before: &[LOGON],
        event: Tick(29_999),
        states: &[ON],
    },
    Row {
        name: "the connection ends",
        before: &[LOGON],
        event: Leave,
        states: &[ON, State { entries: 3, ..ON }],
    },
];

#[test]
fn messages_and_ticks(rt: HostRuntime) -> Result<(), Fail> {
    for row in MESSAGES {
        let desk = Desk::accepting(rt.alloc());
        assert!(rt; row.holds(rt.alloc(), desk), "{}", row.name);
    }
    Ok(())
}

/// A session that dials, which asks for a Logon. Until that is answered its text alone is made.
const DIALS: [Row; 2] = [
    Row {
        name: "a Logon is asked for",
        before: &[],
        event: Dial,
        states: &[
            NEW,
            State { entries: 1, ..NEW },
            State { expected: 1, ..ON },
        ],
    },
    Row {
        name: "its text alone is made",
        before: &[Dial, Tick(30_000)],
        event: Prepare(
            "8=FIX.4.4|9=64|35=A|49=GATE|56=BUYER|34=1|52=20260105-09:30:00.000|98=0|108=30|10=148|",
        ),
        states: &[
            State { expected: 1, ..ON },
            State {
                expected: 1,
                text: 86,
                ..ON
            },
        ],
    },
];

#[test]
fn dials(rt: HostRuntime) -> Result<(), Fail> {
    for row in DIALS {
        let desk = Desk::dialling(rt.alloc());
        assert!(rt; row.holds(rt.alloc(), desk), "{}", row.name);
    }
    Ok(())
}
