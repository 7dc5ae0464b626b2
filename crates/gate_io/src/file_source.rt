//! A source over a file of the system.

ghost use Rattle.std.specs.Prelude.{◌≡◌, ◌≤◌, false, None, IfOk, length, string_bytes};
ghost use Rattle.gate_io.specs.FileSource.{FileState};

use crate::sources::{Got, Source};
use std::fs::File;
use std::io;
use std::io::Read;
use std::marker::Model;
use std::rt::Files;

/// A file as a source. The file is taken at the first read, and a file that can't be opened is a
/// read that fails. Nothing is known of its bytes.
#[derive(Drop)]
pub struct FileSource<R: Files> {
    rt: R,
    path: String,
    file: Option<R::File>,
    faults: u64,
    ends: u64,
}

impl<R: Files> Model for FileSource<R> {
    ghost use Rattle.std.specs.Prelude.{string_bytes};
    ghost use Rattle.std.specs.Option.{is_some};
    ghost use Rattle.gate_io.specs.FileSource.{FileState};

    ghost Value = { FileState };

    ghost view = { λ s. record { path = string_bytes s.path; opened = is_some s.file; faults = s.faults; ends = s.ends } };
}

impl<R: Files> FileSource<R> {
    /// A source over the file at this path, which isn't opened yet.
    pub fn new(rt: R, path: String) -> FileSource<R>
        ensures { result ≡ record { path = string_bytes path; opened = false; faults = 0; ends = 0 } }
    {
        FileSource {
            rt,
            path,
            file: None,
            faults: 0,
            ends: 0,
        }
    }

    /// Reads some bytes, of the file that is opened where it wasn't yet.
    fn take(&mut self, buf: &mut [u8]) -> io::Result<usize>
        ensures within { IfOk result (λ n. n ≤ length buf.old) }
        ensures faults_stay { (self.new).faults ≡ (self.old).faults }
        ensures ends_stay { (self.new).ends ≡ (self.old).ends }
    {
        if self.file.is_none() {
            self.file = Some(File::open(&self.rt, self.path.as_str())?);
        }
        match &mut self.file {
            Some(file) => file.read(buf),
            None => Ok(0),
        }
    }
}

impl<R: Files> Source for FileSource<R> {
    ghost left = { λ _. None };

    ghost faults = { λ s. s.faults };

    ghost ends = { λ s. s.ends };

    fn read(&mut self, buf: &mut [u8]) -> Got {
        match self.take(buf) {
            Ok(0) => {
                self.ends = self.ends.saturating_add(1);
                Got::End
            }
            Ok(n) => Got::Bytes(n),
            Err(_) => {
                self.faults = self.faults.saturating_add(1);
                Got::Failed
            }
        }
    }
}
