//! Files and standard output.

use crate::checks::same;
use gate_io::{FileSource, Got, ReadAll, Sink, Source, StdSink, Wrote, read_all};
use std::alloc::Global;
use std::fs;
use std::test::Fail;

/// Six thousand bytes of which no two parts of a read's length are alike.
fn numbered(alloc: Global) -> Result<Vec<u8>, Fail> {
    let mut bytes = Vec::new(alloc);
    for n in 0..1500u32 {
        bytes.extend_from_slice(&(n * 2_654_435).to_be_bytes())?;
    }
    Ok(bytes)
}

#[test]
fn a_file_is_read_in_two_reads(rt: HostRuntime) -> Result<(), Fail> {
    let alloc = rt.alloc();
    let path = "gate_tests_two_reads";
    let bytes = numbered(alloc)?;
    fs::write(&rt, path, bytes.as_slice())?;
    let mut buf = [0u8; 4096];
    let mut file = FileSource::new(rt, String::from_str(alloc, path)?);
    same(&rt, &file.read(&mut buf), &Got::Bytes(4096));
    assert!(rt; bytes.as_slice().starts_with(&buf));
    let mut rest = [0u8; 1904];
    same(&rt, &file.read(&mut rest), &Got::Bytes(1904));
    assert!(rt; bytes.as_slice().ends_with(&rest));
    same(&rt, &file.read(&mut rest), &Got::End);
    fs::remove_file(&rt, path)?;
    Ok(())
}

#[test]
fn a_file_is_read_whole(rt: HostRuntime) -> Result<(), Fail> {
    let alloc = rt.alloc();
    let path = "gate_tests_whole";
    let bytes = numbered(alloc)?;
    fs::write(&rt, path, bytes.as_slice())?;
    let mut file = FileSource::new(rt, String::from_str(alloc, path)?);
    let whole = read_all(alloc, &mut file, 6000)?;
    same(&rt, &whole.as_slice(), &bytes.as_slice());
    let mut file = FileSource::new(rt, String::from_str(alloc, path)?);
    same(
        &rt,
        &read_all(alloc, &mut file, 5999).err(),
        &Some(ReadAll::TooLong),
    );
    fs::remove_file(&rt, path)?;
    Ok(())
}

#[test]
fn files_that_give_nothing(rt: HostRuntime) -> Result<(), Fail> {
    let alloc = rt.alloc();
    let mut buf = [0u8; 4];
    let mut empty = FileSource::new(rt, String::from_str(alloc, "/dev/null")?);
    same(&rt, &empty.read(&mut buf), &Got::End);
    let mut folder = FileSource::new(rt, String::from_str(alloc, "/")?);
    same(&rt, &folder.read(&mut buf), &Got::Failed);
    let mut missing = FileSource::new(rt, String::from_str(alloc, "/no/such/file")?);
    same(&rt, &missing.read(&mut buf), &Got::Failed);
    same(&rt, &missing.read(&mut buf), &Got::Failed);
    Ok(())
}

#[test]
fn standard_output_takes_bytes(rt: HostRuntime) {
    let mut out = StdSink::new(rt);
    same(&rt, &out.write(b"\n"), &Wrote::Bytes(1));
}
