//! Audits a report and takes the time.
//!
//! Without words it audits a small report of its own, and prints the verdict. With the name of a file it
//! audits the report that the file has, and prints how many nanoseconds that took before the verdict.
//!
//! Stands on `journal_audit` (what is measured), `gate_io` (a file that is read whole) and `anyhow` (errors). Told
//! in docs/measuring.md.
#![tactic(auto)]

use anyhow::bail;
use gate_io::{FileSource, NoMemory, read_all};
use journal_audit::{LONGEST_REPORT, Verdict, audit};
use std::alloc::Global;
use std::env;
use std::time::Instant;

/// A report without sessions.
const SAMPLE: &[u8; 21] = b"fixgate report 1\nend\n";

/// The line that an audit names, or 0 where it says yes.
fn named_line(alloc: Global, report: &[u8]) -> Result<u32, NoMemory> {
    if report.len() > LONGEST_REPORT {
        return Ok(1);
    }
    match audit(alloc, report)? {
        Verdict::Yes => Ok(0),
        Verdict::No { line } => Ok(line),
    }
}

/// Measures the report of a file.
fn measure(rt: &HostRuntime, path: &str) -> Result<(), anyhow::Error> {
    let alloc = rt.alloc();
    let mut source = FileSource::new(*rt, String::from_str(alloc, path)?);
    let bytes = read_all(alloc, &mut source, LONGEST_REPORT)?;
    let start = Instant::now(rt)?;
    let named = named_line(alloc, bytes.as_slice())?;
    let taken = start.elapsed(rt)?;
    println!(rt; "{} {named}", taken.as_nanos())?;
    Ok(())
}

fn main(rt: HostRuntime) -> Result<(), anyhow::Error> {
    let alloc = rt.alloc();
    let mut words = env::args(&rt)?;
    let _program = words.next();
    if let Some(path) = words.next() {
        return measure(&rt, path.as_str());
    }
    let named = named_line(alloc, SAMPLE.as_slice())?;
    if named > 0 {
        bail!("line {named} is wrong");
    }
    println!(rt; "right")?;
    Ok(())
}
