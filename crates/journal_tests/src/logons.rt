//! A Logon that a journal over a disk that tells no bytes takes.

ghost use Rattle.std.specs.Prelude.{◌≡◌, None};

use crate::rows::MOMENT;
use durable_journal::laws::session_texts_are_bodies;
use durable_journal::{AppendError, Disk, Journal};
use gate_io::{Bytes, NoMemory};
use lease_core::{Entry, Record};
use session_core::{Admin, admin_body};
use std::alloc::Global;

/// Appends a Logon with this HeartBtInt, the first message of session 0.
pub fn append_logon<D: Disk>(
    alloc: Global,
    journal: &mut Journal<D>,
    heart: u32,
) -> Result<Result<(), AppendError>, NoMemory>
    requires untold { (disk : D) → D.history disk ≡ None }
{
    session_texts_are_bodies();
    let admin = Admin::Logon {
        heart,
        reset: false,
    };
    let body = admin_body(alloc, &admin, 1)?;
    let event = Record {
        s: 0,
        entry: Entry::Admin { number: 1 },
        at: MOMENT,
        body: Bytes::of(body),
        expected: 2,
    };
    Ok(journal.append(event))
}
