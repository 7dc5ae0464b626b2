//! Sources that are read whole, and sinks that are written.

use crate::checks::same;
use gate_io::{
    Got, MemSink, MemSource, ReadAll, Sink, Source, WriteFault, Wrote, read_all, write_all,
};
use std::test::Fail;

#[test]
fn a_source_is_read_whole(rt: HostRuntime) -> Result<(), Fail> {
    let alloc = rt.alloc();
    let mut source = MemSource::new(Vec::from_slice(alloc, b"a script")?, Vec::new(alloc));
    let bytes = read_all(alloc, &mut source, 8)?;
    same(&rt, &bytes.as_slice(), &b"a script".as_slice());
    Ok(())
}

#[test]
fn a_read_that_fails_is_told(rt: HostRuntime) -> Result<(), Fail> {
    let alloc = rt.alloc();
    let bytes = vec![in alloc; 7u8; 70_000]?;
    let mut source = MemSource::new(bytes, vec![in alloc; 1u64]?);
    same(
        &rt,
        &read_all(alloc, &mut source, 100_000).err(),
        &Some(ReadAll::ReadFault),
    );
    // The first piece was given.
    let rest = read_all(alloc, &mut source, 100_000)?;
    same(&rt, &rest.len(), &(70_000 - 65_536));
    Ok(())
}

#[test]
fn a_source_over_the_limit_is_too_long(rt: HostRuntime) -> Result<(), Fail> {
    let alloc = rt.alloc();
    let mut source = MemSource::new(Vec::from_slice(alloc, b"a script")?, Vec::new(alloc));
    same(
        &rt,
        &read_all(alloc, &mut source, 7).err(),
        &Some(ReadAll::TooLong),
    );
    Ok(())
}

#[test]
fn a_fault_behind_the_limit_is_not_met(rt: HostRuntime) -> Result<(), Fail> {
    let alloc = rt.alloc();
    let bytes = vec![in alloc; 7u8; 140_000]?;
    let mut source = MemSource::new(bytes, vec![in alloc; 2u64]?);
    same(
        &rt,
        &read_all(alloc, &mut source, 100_000).err(),
        &Some(ReadAll::TooLong),
    );
    let mut buf = [0u8; 4];
    same(&rt, &source.read(&mut buf), &Got::Failed);
    Ok(())
}

#[test]
fn a_sink_takes_a_beginning(rt: HostRuntime) -> Result<(), Fail> {
    let alloc = rt.alloc();
    let mut sink = MemSink::new(alloc, 10, Vec::new(alloc))?;
    same(
        &rt,
        &write_all(&mut sink, b"twelve bytes"),
        &Err(WriteFault),
    );
    same(&rt, &sink.bytes(), &b"twelve byt".as_slice());
    let mut sink = MemSink::new(alloc, 100, vec![in alloc; 0u64]?)?;
    same(&rt, &write_all(&mut sink, b"none"), &Err(WriteFault));
    same(&rt, &sink.bytes(), &b"".as_slice());
    same(&rt, &sink.write(b"some"), &Wrote::Bytes(4));
    Ok(())
}
