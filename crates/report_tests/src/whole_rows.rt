//! Whole records, each with its whole report.

use crate::checks::same_text;
use crate::expected;
use crate::records::run;
use crate::sessions::Numbered;
use crate::texts::T;
use crate::wholes::Answered::{Asked, Granted, Handed, Message, Nothing, Refused, Released};
use crate::wholes::{Carried, Played, Whole, report};
use lease_core::{Entry, Why};
use run_report::report_text;
use session_core::Cause;
use std::test::Fail;

/// The counterparty's Logon and its orders, and GATE's Logon as it is written.
const LOGON: &str = "35=A|49=BUYER|56=GATE|34=1|52=20260105-09:30:00.000|98=0|108=30|";

const FIRST: &str = "35=D|49=BUYER|56=GATE|34=2|52=20260105-09:30:00.000|11=A1|";

const SECOND: &str = "35=D|49=BUYER|56=GATE|34=3|52=20260105-09:30:00.000|11=A2|";

const THIRD: &str = "35=D|49=BUYER|56=GATE|34=4|52=20260105-09:30:00.000|11=A3|";

const ANSWER: &str = "35=A|49=GATE|56=BUYER|34=1|52=20260105-09:30:00.000|98=0|108=30|";

/// GATE's Logon in the outbound log.
const LOGGED: Numbered<'static> = (T, "35=A|98=0|108=30|");

#[test]
fn an_empty_record(rt: HostRuntime) -> Result<(), Fail> {
    let alloc = rt.alloc();
    let record = run(alloc, Vec::new(alloc), 0, Vec::new(alloc), Vec::new(alloc));
    let text = report_text(alloc, &record)?;
    same_text(&rt, text.as_slice(), "fixgate report 1\nend\n");
    Ok(())
}

const TWO_ORDERS: Whole<'static> = Whole {
    them: "BUYER",
    journal: &[
        Entry::Bind { c: 0 },
        Entry::Admin { number: 1 },
        Entry::Arrive { pos: 0 },
        Entry::Arrive { pos: 1 },
        Entry::Leave { c: 0 },
    ],
    inbound: &[FIRST, SECOND],
    outbound: &[LOGGED],
    accepted: 1,
    connections: &[Carried {
        taken: &[LOGON, FIRST, SECOND],
        written: &[ANSWER],
        cause: Some(Cause::End),
    }],
    libraries: &[Played {
        number: 1,
        calls: &[],
        reads: 0,
    }],
};

#[test]
fn two_orders(rt: HostRuntime) -> Result<(), Fail> {
    let text = report(rt.alloc(), &TWO_ORDERS)?;
    same_text(&rt, text.as_slice(), expected::TWO_ORDERS);
    Ok(())
}

/// Why library 1 was refused first.
const MISSING: Why = Why::MissingMessages {
    asked: 3,
    logged: 2,
};

const GRANTED_TWICE: Whole<'static> = Whole {
    them: "BUYER",
    journal: &[
        Entry::Bind { c: 0 },
        Entry::Admin { number: 1 },
        Entry::Arrive { pos: 0 },
        Entry::Arrive { pos: 1 },
        Entry::Refused {
            library: 1,
            nr: 1,
            why: MISSING,
        },
        Entry::Granted {
            library: 1,
            nr: 2,
            lease: 1,
            from: 0,
            start: 2,
        },
        Entry::Release {
            lease: 1,
            library: 1,
            count: 0,
            heir: 0,
        },
        Entry::Granted {
            library: 1,
            nr: 3,
            lease: 2,
            from: 2,
            start: 2,
        },
    ],
    inbound: &[FIRST, SECOND],
    outbound: &[LOGGED],
    accepted: 1,
    connections: &[Carried {
        taken: &[LOGON, FIRST, SECOND],
        written: &[ANSWER],
        cause: None,
    }],
    libraries: &[
        Played {
            number: 1,
            calls: &[
                Asked { from: 3, nr: 1 },
                Refused {
                    nr: 1,
                    why: MISSING,
                },
                Asked { from: 0, nr: 2 },
                Granted {
                    nr: 2,
                    lease: 1,
                    from: 0,
                    start: 2,
                },
                Message {
                    lease: 1,
                    pos: 0,
                    text: FIRST,
                },
                Message {
                    lease: 1,
                    pos: 1,
                    text: SECOND,
                },
                Released { lease: 1 },
                Asked { from: 2, nr: 3 },
                Granted {
                    nr: 3,
                    lease: 2,
                    from: 2,
                    start: 2,
                },
                Nothing,
            ],
            reads: 2,
        },
        Played {
            number: 2,
            calls: &[],
            reads: 0,
        },
    ],
};

#[test]
fn granted_twice(rt: HostRuntime) -> Result<(), Fail> {
    let text = report(rt.alloc(), &GRANTED_TWICE)?;
    same_text(&rt, text.as_slice(), expected::GRANTED_TWICE);
    Ok(())
}

/// Why library 2 was refused first.
const OTHER_OWNER: Why = Why::OtherOwner { owner: 1, lease: 1 };

const TWO_LIBRARIES: Whole<'static> = Whole {
    them: "BUYER",
    journal: &[
        Entry::Bind { c: 0 },
        Entry::Admin { number: 1 },
        Entry::Granted {
            library: 1,
            nr: 1,
            lease: 1,
            from: 0,
            start: 0,
        },
        Entry::Refused {
            library: 2,
            nr: 1,
            why: OTHER_OWNER,
        },
        Entry::Release {
            lease: 1,
            library: 1,
            count: 0,
            heir: 0,
        },
        Entry::Granted {
            library: 2,
            nr: 2,
            lease: 2,
            from: 0,
            start: 0,
        },
    ],
    inbound: &[],
    outbound: &[LOGGED],
    accepted: 1,
    connections: &[Carried {
        taken: &[LOGON],
        written: &[ANSWER],
        cause: None,
    }],
    libraries: &[
        Played {
            number: 1,
            calls: &[
                Asked { from: 0, nr: 1 },
                Granted {
                    nr: 1,
                    lease: 1,
                    from: 0,
                    start: 0,
                },
                Released { lease: 1 },
            ],
            reads: 0,
        },
        Played {
            number: 2,
            calls: &[
                Asked { from: 0, nr: 1 },
                Refused {
                    nr: 1,
                    why: OTHER_OWNER,
                },
                Asked { from: 0, nr: 2 },
                Granted {
                    nr: 2,
                    lease: 2,
                    from: 0,
                    start: 0,
                },
            ],
            reads: 0,
        },
    ],
};

#[test]
fn two_libraries(rt: HostRuntime) -> Result<(), Fail> {
    let text = report(rt.alloc(), &TWO_LIBRARIES)?;
    same_text(&rt, text.as_slice(), expected::TWO_LIBRARIES);
    Ok(())
}

const TAKEN_BACK: Whole<'static> = Whole {
    them: "BUYER",
    journal: &[
        Entry::Bind { c: 0 },
        Entry::Admin { number: 1 },
        Entry::Granted {
            library: 1,
            nr: 1,
            lease: 1,
            from: 0,
            start: 0,
        },
        Entry::Arrive { pos: 0 },
        Entry::Arrive { pos: 1 },
        Entry::Arrive { pos: 2 },
        Entry::Timeout {
            lease: 1,
            library: 1,
            count: 0,
        },
        Entry::Granted {
            library: 2,
            nr: 1,
            lease: 2,
            from: 1,
            start: 3,
        },
    ],
    inbound: &[FIRST, SECOND, THIRD],
    outbound: &[LOGGED],
    accepted: 1,
    connections: &[Carried {
        taken: &[LOGON, FIRST, SECOND, THIRD],
        written: &[ANSWER],
        cause: None,
    }],
    libraries: &[
        Played {
            number: 1,
            calls: &[
                Asked { from: 0, nr: 1 },
                Granted {
                    nr: 1,
                    lease: 1,
                    from: 0,
                    start: 0,
                },
                Message {
                    lease: 1,
                    pos: 0,
                    text: FIRST,
                },
            ],
            reads: 1,
        },
        Played {
            number: 2,
            calls: &[
                Asked { from: 1, nr: 1 },
                Granted {
                    nr: 1,
                    lease: 2,
                    from: 1,
                    start: 3,
                },
                Message {
                    lease: 2,
                    pos: 1,
                    text: SECOND,
                },
                Message {
                    lease: 2,
                    pos: 2,
                    text: THIRD,
                },
            ],
            reads: 2,
        },
    ],
};

#[test]
fn taken_back(rt: HostRuntime) -> Result<(), Fail> {
    let text = report(rt.alloc(), &TAKEN_BACK)?;
    same_text(&rt, text.as_slice(), expected::TAKEN_BACK);
    Ok(())
}

/// Why library 3 was refused.
const RESERVED: Why = Why::Reserved {
    for_library: 2,
    until: T + 2_000,
};

const HANDED_ON: Whole<'static> = Whole {
    them: "BUYER",
    journal: &[
        Entry::Granted {
            library: 1,
            nr: 1,
            lease: 1,
            from: 0,
            start: 0,
        },
        Entry::Release {
            lease: 1,
            library: 1,
            count: 0,
            heir: 2,
        },
        Entry::Hold {
            lease: 1,
            until: T + 2_000,
        },
        Entry::Refused {
            library: 3,
            nr: 1,
            why: RESERVED,
        },
        Entry::Granted {
            library: 2,
            nr: 1,
            lease: 2,
            from: 0,
            start: 0,
        },
    ],
    inbound: &[],
    outbound: &[],
    accepted: 0,
    connections: &[],
    libraries: &[
        Played {
            number: 1,
            calls: &[
                Asked { from: 0, nr: 1 },
                Granted {
                    nr: 1,
                    lease: 1,
                    from: 0,
                    start: 0,
                },
                Handed { heir: 2, lease: 1 },
            ],
            reads: 0,
        },
        Played {
            number: 2,
            calls: &[
                Asked { from: 0, nr: 1 },
                Granted {
                    nr: 1,
                    lease: 2,
                    from: 0,
                    start: 0,
                },
            ],
            reads: 0,
        },
        Played {
            number: 3,
            calls: &[
                Asked { from: 0, nr: 1 },
                Refused {
                    nr: 1,
                    why: RESERVED,
                },
            ],
            reads: 0,
        },
    ],
};

#[test]
fn handed_on(rt: HostRuntime) -> Result<(), Fail> {
    let text = report(rt.alloc(), &HANDED_ON)?;
    same_text(&rt, text.as_slice(), expected::HANDED_ON);
    Ok(())
}

const DIALLED: Whole<'static> = Whole {
    them: "HUB",
    journal: &[
        Entry::Bind { c: 1_024 },
        Entry::Admin { number: 1 },
        Entry::Leave { c: 1_024 },
    ],
    inbound: &[],
    outbound: &[LOGGED],
    accepted: 0,
    connections: &[Carried {
        taken: &["35=A|49=HUB|56=GATE|34=1|52=20260105-09:30:00.000|98=0|108=20|"],
        written: &["35=A|49=GATE|56=HUB|34=1|52=20260105-09:30:00.000|98=0|108=30|"],
        cause: Some(Cause::BadLogon { tag: 108 }),
    }],
    libraries: &[],
};

#[test]
fn dialled(rt: HostRuntime) -> Result<(), Fail> {
    let text = report(rt.alloc(), &DIALLED)?;
    same_text(&rt, text.as_slice(), expected::DIALLED);
    Ok(())
}
