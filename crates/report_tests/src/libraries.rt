//! What a run leaves of a library.

use gate_io::Rows;
use lease_core::{Command, Notice};
use lease_words::Leases;
use library_api::{Library, LibraryEnds2, Waited};
use ring_links::ring;
use run_report::{Call, LibReport};
use std::alloc::Global;
use std::test::Fail;

/// A library that carried out its plan.
pub fn library(alloc: Global, number: u8, calls: Vec<Call>, reads: u64) -> Result<LibReport, Fail> {
    Ok(LibReport {
        number,
        calls: Rows::of(calls),
        reads,
        finished: true,
        waited: waited(alloc)?,
    })
}

/// How long a library that did nothing has waited. Only a library tells that.
fn waited(alloc: Global) -> Result<Waited, Fail> {
    let (_leases, _engine, seats) = Leases::new(alloc, 0, 1, 1, 1)?;
    let seat = seats.into_iter().next().ok_or("a seat")?;
    let (_commands, tail, _) = ring::<Command>(alloc, 1)?;
    let (_notices, _, head) = ring::<Notice>(alloc, 1)?;
    let ends = LibraryEnds2 {
        number: seat.number(),
        seat,
        tail,
        head,
    };
    Ok(Library::new(ends, 1).waited())
}
