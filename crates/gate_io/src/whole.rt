//! A whole source read, and bytes written to a sink to their end.

ghost use Rattle.std.specs.Prelude.{◌≡◌, ◌≤◌, [], Some, IfOk, IfSome, OnOk, OnErr, IsErrOf, codes, vec_len};
ghost use Rattle.gate_io.specs.Counts.{HasRisen};
ghost use Rattle.gate_io.specs.Printed.{text_of};
ghost use Rattle.gate_io.specs.Source.{GaveMoreThan, GaveWithin, IsAllOf, IsLongerThan};
ghost use Rattle.gate_io.specs.Sink.{HasTaken, HasTakenPrefix};
ghost use Rattle.gate_io.specs.declared.whole.ReadAll.TheVariants.{OutOfMemory};

use crate::sinks::{Sink, Wrote};
use crate::sources::{Got, Source};
use std::alloc::{AllocError, Global};
use std::error::Error;
use std::fmt;

/// How many bytes `read_all` asks for at a time.
const CHUNK: usize = 65_536;

/// Why a source was not read to its end.
#[derive(Clone, Copy, Debug, PartialEq, Eq)]
pub enum ReadAll {
    OutOfMemory,
    /// A read failed.
    ReadFault,
    /// There are more bytes than the limit.
    TooLong,
}

impl fmt::Display for ReadAll {
    ghost output = { λ e. Some (text_of e) };

    fn fmt<W: fmt::Write>(&self, f: &mut fmt::Formatter<W>) -> fmt::Result {
        match self {
            ReadAll::OutOfMemory => write!(f, "out of memory"),
            ReadAll::ReadFault => write!(f, "a read failed"),
            ReadAll::TooLong => write!(f, "too many bytes"),
        }
    }
}

impl Error for ReadAll {}

impl From<AllocError> for ReadAll {
    ghost from_gives = { λ _ e. e ≡ OutOfMemory };

    fn from(_e: AllocError) -> ReadAll {
        ReadAll::OutOfMemory
    }
}

/// A write failed.
#[derive(Clone, Copy, Debug, PartialEq, Eq)]
pub struct WriteFault;

impl fmt::Display for WriteFault {
    ghost output = { λ _. Some (codes "a write failed") };

    fn fmt<W: fmt::Write>(&self, f: &mut fmt::Formatter<W>) -> fmt::Result {
        write!(f, "a write failed")
    }
}

impl Error for WriteFault {}

/// A buffer of so many bytes.
fn buffer_of(alloc: Global, len: usize) -> Result<Vec<u8>, AllocError>
    ensures { IfOk result (λ v. vec_len v ≡ len) }
{
    vec![in alloc; 0u8; len]
}

/// Reads a source to its end, where it has at most `limit` bytes.
pub fn read_all<So: Source>(
    alloc: Global,
    source: &mut So,
    limit: usize,
) -> Result<Vec<u8>, ReadAll>
    ensures all { IfOk result (λ bytes. IsAllOf (So.left source.old) bytes.items) }
    ensures nothing_left { OnOk result (IfSome (So.left source.old) (λ _. So.left source.new ≡ Some [])) }
    ensures ended { OnOk result (HasRisen (So.ends source.old) (So.ends source.new)) }
    ensures within_limit { IfOk result (λ bytes. vec_len bytes ≤ limit) }
    ensures fault { IsErrOf result ReadAll.ReadFault → HasRisen (So.faults source.old) (So.faults source.new) }
    ensures too_long { IsErrOf result ReadAll.TooLong → IsLongerThan (So.left source.old) limit }
    // What an error leaves: the source stands behind what it gave.
    ensures fault_within { IsErrOf result ReadAll.ReadFault → GaveWithin (So.left source.old) limit (So.left source.new) }
    ensures no_memory_within { IsErrOf result ReadAll.OutOfMemory → GaveWithin (So.left source.old) limit (So.left source.new) }
    ensures too_long_past { IsErrOf result ReadAll.TooLong → GaveMoreThan (So.left source.old) limit (So.left source.new) }
    ensures ends_kept { So.ends source.old ≤ So.ends source.new }
    ensures faults_kept { So.faults source.old ≤ So.faults source.new }
{
    let mut chunk = buffer_of(alloc, CHUNK)?;
    let buf = chunk.as_mut_slice();
    let mut bytes = Vec::new(alloc);
    'reading: loop {
        match source.read(buf) {
            Got::Bytes(n) => {
                if n > limit - bytes.len() {
                    return Err(ReadAll::TooLong);
                }
                bytes.extend_from_slice(&buf[..n])?;
            }
            Got::End => return Ok(bytes),
            Got::Failed => return Err(ReadAll::ReadFault),
        }
    }
}

/// Writes all the bytes, and stops at the first failure: the sink then took a beginning of them.
pub fn write_all<Si: Sink>(sink: &mut Si, bytes: &[u8]) -> Result<(), WriteFault>
    ensures all { OnOk result (HasTaken (Si.held sink.old) bytes.now (Si.held sink.new)) }
    ensures prefix { OnErr result (HasTakenPrefix (Si.held sink.old) bytes.now (Si.held sink.new)) }
    ensures fault { OnErr result (HasRisen (Si.faults sink.old) (Si.faults sink.new)) }
    ensures faults_kept { Si.faults sink.old ≤ Si.faults sink.new }
{
    let mut done = 0;
    'writing: while done < bytes.len() {
        match sink.write(&bytes[done..]) {
            Wrote::Bytes(n) => done += n,
            Wrote::Failed => return Err(WriteFault),
        }
    }
    Ok(())
}
