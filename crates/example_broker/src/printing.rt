//! The program's words, what it prints, and its exit status.

use crate::counterparty::ORDERS;
use crate::running::NoRun;
use crate::words::WordsError;
use gate_io::{StdSink, write_all};
use run_report::{RunRecord, report_text};
use std::process::ExitCode;
use std::{env, io};

const USAGE: &str = "usage: example_broker ADDRESS CONNECTIONS SESSION..";

/// How the program ends.
#[derive(Clone, Copy)]
pub(crate) enum Ended {
    Well,
    OutOfMemory,
    Usage,
    WriteFault,
    ListenFault,
}

impl Ended {
    pub(crate) fn of_run(why: NoRun) -> Ended {
        match why {
            NoRun::OutOfMemory => Ended::OutOfMemory,
            NoRun::ListenFault => Ended::ListenFault,
        }
    }

    pub(crate) fn of_words(why: WordsError) -> Ended {
        match why {
            WordsError::OutOfMemory => Ended::OutOfMemory,
            WordsError::Usage => Ended::Usage,
        }
    }
}

/// The exit status, with the line of one that isn't 0 on standard error.
pub(crate) fn end(rt: &HostRuntime, ended: Ended) -> ExitCode {
    let (status, line) = match ended {
        Ended::Well => return ExitCode::from(0),
        Ended::OutOfMemory => (1, "example_broker: out of memory"),
        Ended::Usage => (2, USAGE),
        Ended::WriteFault => (5, "example_broker: cannot write the report"),
        Ended::ListenFault => (7, "example_broker: cannot listen"),
    };
    let _ = eprintln!(rt; "{line}");
    ExitCode::from(status)
}

/// The words behind the program's name. Words that aren't text are wrong.
pub(crate) fn all_words(rt: &HostRuntime) -> Result<Vec<String>, Ended> {
    match read_words(rt) {
        Ok(words) => Ok(words),
        Err(e) if e.kind() == io::ErrorKind::InvalidData => Err(Ended::Usage),
        Err(_) => Err(Ended::OutOfMemory),
    }
}

fn read_words(rt: &HostRuntime) -> io::Result<Vec<String>> {
    let mut args = env::args(rt)?;
    let _program = args.next();
    Ok(args.collect(rt.alloc())?)
}

/// Prints the report of a run.
pub(crate) fn print_report(rt: &HostRuntime, record: &RunRecord) -> Ended {
    let Ok(text) = report_text(rt.alloc(), record) else {
        return Ended::OutOfMemory;
    };
    match write_all(&mut StdSink::new(*rt), text.as_slice()) {
        Ok(()) => Ended::Well,
        Err(_) => Ended::WriteFault,
    }
}

/// Prints how many orders the counterparty in memory sent, how many reports came, and how many messages each library
/// read.
pub(crate) fn print_counts(rt: &HostRuntime, record: &RunRecord, reports: u64) -> Ended {
    match put_counts(rt, record, reports) {
        Ok(()) => Ended::Well,
        Err(_) => Ended::WriteFault,
    }
}

fn put_counts(rt: &HostRuntime, record: &RunRecord, reports: u64) -> io::Result<()> {
    println!(rt; "orders {ORDERS}")?;
    println!(rt; "reports {reports}")?;
    for library in record.libraries.as_slice() {
        let number = library.number;
        let reads = library.reads;
        println!(rt; "library {number} read {reads}")?;
    }
    Ok(())
}
