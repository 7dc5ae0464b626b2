//! Rows of what the leases of a session do, and of the records of its entries.

use crate::desk::Desk;
use crate::events::Event;
use crate::events::Event::{Bind, Keep, Lapse, Receive, Request, Show, TimeOut};
use crate::rows::Row;
use crate::states::{NEW, ON, State};
use lease_core::{Standing, Word};
use std::test::Fail;

const LOGON: Event = Bind("35=A|(1)98=0|108=30|");

/// Library 1 has the session, and sent once; three times.
const ONE_SENT: Word = Word {
    lease: 1,
    owner: 1,
    standing: Standing::Active,
    count: 1,
};

const THREE_SENT: Word = Word {
    count: 3,
    ..ONE_SENT
};

/// It gave the session back for library 2 behind one send.
const HANDED_ON: Word = Word {
    lease: 1,
    owner: 2,
    standing: Standing::Released,
    count: 1,
};

/// The session is on, and library 1 got it.
const LEASED: State = State { entries: 3, ..ON };

/// Behind that it sent something.
const REPORTED: State = State {
    entries: 4,
    outbound: 2,
    waiting: 2,
    ..ON
};

const LEASES: [Row; 9] = [
    Row {
        name: "a library gets the session",
        before: &[],
        event: Request(1),
        states: &[NEW, State { entries: 1, ..NEW }],
    },
    Row {
        name: "another is refused",
        before: &[Request(1)],
        event: Request(2),
        states: &[State { entries: 1, ..NEW }, State { entries: 2, ..NEW }],
    },
    Row {
        name: "a send waits",
        before: &[LOGON, Request(1)],
        event: Show(ONE_SENT, 1),
        states: &[LEASED, REPORTED],
    },
    // Its release for an heir is followed by the hold.
    Row {
        name: "a release for an heir",
        before: &[LOGON, Request(1)],
        event: Show(HANDED_ON, 1),
        states: &[
            LEASED,
            State {
                entries: 6,
                ..REPORTED
            },
        ],
    },
    // On a session that is bound to no connection it waits nowhere.
    Row {
        name: "sends wait nowhere",
        before: &[Request(1)],
        event: Show(THREE_SENT, 3),
        states: &[
            State { entries: 1, ..NEW },
            State {
                entries: 4,
                outbound: 3,
                ..NEW
            },
        ],
    },
    Row {
        name: "the session is taken back",
        before: &[LOGON, Request(1)],
        event: TimeOut(ONE_SENT, 1),
        states: &[
            LEASED,
            State {
                entries: 5,
                ..REPORTED
            },
        ],
    },
    Row {
        name: "the heir did not come",
        before: &[LOGON, Request(1), Show(HANDED_ON, 1)],
        event: Lapse,
        states: &[
            State {
                entries: 6,
                ..REPORTED
            },
            State {
                entries: 7,
                ..REPORTED
            },
        ],
    },
    // A gap fill and the report answer what is asked for again.
    Row {
        name: "a report is sent again",
        before: &[LOGON, Request(1), Show(ONE_SENT, 1)],
        event: Receive("35=2|(2)7=1|16=0|"),
        states: &[
            REPORTED,
            State {
                expected: 3,
                ..REPORTED
            },
            State {
                entries: 5,
                expected: 3,
                waiting: 4,
                ..REPORTED
            },
        ],
    },
    Row {
        name: "records are made",
        before: &[
            LOGON,
            Request(1),
            Show(ONE_SENT, 1),
            Receive("35=D|(2)11=A1|"),
        ],
        event: Keep,
        states: &[
            State {
                entries: 5,
                inbound: 1,
                expected: 3,
                ..REPORTED
            },
            State {
                entries: 5,
                inbound: 1,
                expected: 3,
                ..REPORTED
            },
        ],
    },
];

#[test]
fn leases_and_records(rt: HostRuntime) -> Result<(), Fail> {
    for row in LEASES {
        let desk = Desk::accepting(rt.alloc());
        assert!(rt; row.holds(rt.alloc(), desk), "{}", row.name);
    }
    Ok(())
}
