//! The lines of libraries.

use crate::checks::same_text;
use crate::libraries::library;
use crate::records::{lines, run};
use crate::texts::T;
use gate_io::Bytes;
use lease_core::{Standing, Why, Word};
use lease_words::Sent;
use library_api::{AskError, Event, HandRefusal, ReleaseRefusal, Released, SendRefusal};
use row_text::soh;
use run_report::Call;
use std::alloc::Global;
use std::test::Fail;

/// The word of a lease of library 1 that the engine took back, and of one that was given back.
const REVOKED: Word = Word {
    lease: 1,
    owner: 1,
    standing: Standing::Revoked,
    count: 0,
};

const RELEASED: Word = Word {
    lease: 2,
    owner: 3,
    standing: Standing::Released,
    count: 4,
};

const ACTIVE: Word = Word {
    lease: 3,
    owner: 2,
    standing: Standing::Active,
    count: 5,
};

/// The report's lines for library 1 with these calls.
fn lines_of(alloc: Global, calls: Vec<Call>, reads: u64) -> Result<Vec<u8>, Fail> {
    let libraries = Vec::from_array(alloc, [library(alloc, 1, calls, reads)?])?;
    lines(
        alloc,
        &run(alloc, Vec::new(alloc), 0, Vec::new(alloc), libraries),
    )
}

const REQUEST_LINES: &str = "library 1 reads 0
 request 0 3: asked 1
 request 65535 18446744073709551615: outstanding 1
 request 1 0: asks-spent 4294967295
 request 2 0: ring-full 256 0
";

#[test]
fn requests(rt: HostRuntime) -> Result<(), Fail> {
    let alloc = rt.alloc();
    let calls = [
        Call::Request {
            s: 0,
            from: 3,
            answer: Ok(1),
        },
        Call::Request {
            s: u16::MAX,
            from: u64::MAX,
            answer: Err(AskError::Outstanding { nr: 1 }),
        },
        Call::Request {
            s: 1,
            from: 0,
            answer: Err(AskError::AsksSpent { count: u32::MAX }),
        },
        Call::Request {
            s: 2,
            from: 0,
            answer: Err(AskError::RingFull {
                pushed: 256,
                taken: 0,
            }),
        },
    ];
    let text = lines_of(alloc, Vec::from_array(alloc, calls)?, 0)?;
    same_text(&rt, text.as_slice(), REQUEST_LINES);
    Ok(())
}

const POLL_LINES: &str = "library 1 reads 1
 poll: nothing
 poll: not-yet 0 7 5
 poll: granted 2 0 lease 1 from 0 start 2
 poll: refused 1 65535 unknown-session 65535
 poll: refused 1 0 reserved 2 20260105-09:30:02.000
 poll: message 0 lease 1 pos 0 35=D|11=A\\7c1|
 poll: stale 0 lease 1 pos 1
 poll: lease-lost 0 lease 1 1 1 revoked 0
";

#[test]
fn polls(rt: HostRuntime) -> Result<(), Fail> {
    let alloc = rt.alloc();
    let events = [
        Event::Nothing,
        Event::NotYet {
            s: 0,
            pos: 7,
            published: 5,
        },
        Event::Granted {
            nr: 2,
            s: 0,
            lease: 1,
            from: 0,
            start: 2,
        },
        Event::Refused {
            nr: 1,
            s: 65_535,
            why: Why::UnknownSession { s: 65_535 },
        },
        Event::Refused {
            nr: 1,
            s: 0,
            why: Why::Reserved {
                for_library: 2,
                until: T + 2_000,
            },
        },
        Event::Message {
            s: 0,
            lease: 1,
            pos: 0,
            bytes: Bytes::of(Vec::from_slice(alloc, b"35=D\x0111=A|1\x01")?),
        },
        Event::Stale {
            s: 0,
            lease: 1,
            pos: 1,
        },
        Event::LeaseLost {
            s: 0,
            lease: 1,
            seen: REVOKED,
        },
    ];
    let mut calls = Vec::new(alloc);
    for event in events {
        calls.push(Call::Poll { event })?;
    }
    same_text(&rt, lines_of(alloc, calls, 1)?.as_slice(), POLL_LINES);
    Ok(())
}

const SEND_LINES: &str = "library 1 reads 0
 send 0 35=8|37=O1|: sent 1 1
 send 0 35=8|37=O1|: not-held
 send 0 35=8|37=O1|: too-long 8193
 send 0 : bad-body 0
 send 0 35=8|37=O1|: lane-full 16 0
 send 0 35=8|37=O1|: sends-spent 99
 send 0 35=8|37=O1|: lost 1 1 revoked 0
";

#[test]
fn sends(rt: HostRuntime) -> Result<(), Fail> {
    let alloc = rt.alloc();
    let body = "35=8|37=O1|";
    let answers = [
        (
            body,
            Ok(Sent {
                lease: 1,
                ordinal: 1,
            }),
        ),
        (body, Err(SendRefusal::NotHeld)),
        (body, Err(SendRefusal::TooLong { length: 8_193 })),
        ("", Err(SendRefusal::BadBody { at: 0 })),
        (
            body,
            Err(SendRefusal::LaneFull {
                committed: 16,
                taken: 0,
            }),
        ),
        (body, Err(SendRefusal::SendsSpent { count: 99 })),
        (body, Err(SendRefusal::Lost { seen: REVOKED })),
    ];
    let mut calls = Vec::new(alloc);
    for (body, answer) in answers {
        calls.push(Call::Send {
            s: 0,
            body: Bytes::of(soh(alloc, body)?),
            answer,
        })?;
    }
    same_text(&rt, lines_of(alloc, calls, 0)?.as_slice(), SEND_LINES);
    Ok(())
}

const ENDING_LINES: &str = "library 1 reads 0
 release 0: released 1 0
 release 0: not-held
 release 0: lost 2 3 released 4
 hand 0 2: handed 1 0
 hand 0 2: not-held
 hand 0 255: bad-heir 255
 hand 0 3: lost 3 2 active 5
 beat: beaten
";

#[test]
fn releases_and_beats(rt: HostRuntime) -> Result<(), Fail> {
    let alloc = rt.alloc();
    let released = Released { lease: 1, count: 0 };
    let calls = [
        Call::Release {
            s: 0,
            answer: Ok(released),
        },
        Call::Release {
            s: 0,
            answer: Err(ReleaseRefusal::NotHeld),
        },
        Call::Release {
            s: 0,
            answer: Err(ReleaseRefusal::Lost { seen: RELEASED }),
        },
        Call::Hand {
            s: 0,
            heir: 2,
            answer: Ok(released),
        },
        Call::Hand {
            s: 0,
            heir: 2,
            answer: Err(HandRefusal::NotHeld),
        },
        Call::Hand {
            s: 0,
            heir: 255,
            answer: Err(HandRefusal::BadHeir { heir: 255 }),
        },
        Call::Hand {
            s: 0,
            heir: 3,
            answer: Err(HandRefusal::Lost { seen: ACTIVE }),
        },
        Call::Beat,
    ];
    let text = lines_of(alloc, Vec::from_array(alloc, calls)?, 0)?;
    same_text(&rt, text.as_slice(), ENDING_LINES);
    Ok(())
}
