//! A file of the system as a disk.

ghost use Rattle.std.specs.Prelude.{◌≡◌, ◌+◌, ◌≤◌, ◌^◌, false, None, length, string_bytes};
ghost use Rattle.gate_io.specs.Counts.{one_more};
ghost use Rattle.durable_journal.specs.FileDisk.{FileDiskState};

use crate::disk::{Disk, DiskFault};
use std::fs::{OpenFile, OpenOptions};
use std::io;
use std::marker::Model;
use std::os::unix::fs::FileExt;
use std::rt::Files;

/// A file as a disk, by positioned reads and writes on one descriptor and the system's data sync.
/// It is opened at the first call, and made where it isn't there; one that can't be opened is a
/// call that fails. Nothing is told of its bytes: that it is such a disk as `Disk` says is trusted.
#[derive(Drop)]
pub struct FileDisk<R: Files> {
    rt: R,
    path: String,
    file: Option<R::File>,
    faults: u64,
}

impl<R: Files> Model for FileDisk<R> {
    ghost use Rattle.std.specs.Prelude.{string_bytes};
    ghost use Rattle.std.specs.Option.{is_some};
    ghost use Rattle.durable_journal.specs.FileDisk.{FileDiskState};

    ghost Value = { FileDiskState };

    ghost view = { λ a. record { path = string_bytes a.path; opened = is_some a.file; faults = a.faults } };
}

impl<R: Files> FileDisk<R> {
    /// A disk over the file at this path, which isn't opened yet.
    pub fn new(rt: R, path: String) -> FileDisk<R>
        ensures { result ≡ record { path = string_bytes path; opened = false; faults = 0 } }
    {
        FileDisk {
            rt,
            path,
            file: None,
            faults: 0,
        }
    }

    /// Opens the file where it wasn't yet.
    fn open(&mut self) -> io::Result<()>
        ensures faults_stay { (self.new).faults ≡ (self.old).faults }
    {
        if self.file.is_none() {
            let mut options = OpenOptions::new();
            options.read(true);
            options.write(true);
            options.create(true);
            self.file = Some(options.open(&self.rt, self.path.as_str())?);
        }
        Ok(())
    }

    fn measure(&mut self) -> io::Result<u64>
        ensures faults_stay { (self.new).faults ≡ (self.old).faults }
    {
        self.open()?;
        match &self.file {
            Some(file) => Ok(file.metadata()?.len()),
            None => Ok(0),
        }
    }

    fn flush(&mut self) -> io::Result<()>
        ensures faults_stay { (self.new).faults ≡ (self.old).faults }
    {
        self.open()?;
        match &self.file {
            Some(file) => file.sync_data(),
            None => Ok(()),
        }
    }

    fn fail(&mut self) -> DiskFault
        ensures faults { (self.new).faults ≡ one_more (self.old).faults }
        ensures faults_kept { (self.old).faults ≤ (self.new).faults }
    {
        self.faults = self.faults.saturating_add(1);
        DiskFault::Failed
    }
}

impl<R: Files> FileDisk<R>
where
    R::File: FileExt,
{
    fn fill(&mut self, at: u64, buf: &mut [u8]) -> io::Result<()>
        ensures faults_stay { (self.new).faults ≡ (self.old).faults }
    {
        self.open()?;
        match &self.file {
            Some(file) => file.read_exact_at(buf, at),
            None => Ok(()),
        }
    }

    fn put(&mut self, at: u64, piece: &[u8]) -> io::Result<()>
        ensures faults_stay { (self.new).faults ≡ (self.old).faults }
    {
        self.open()?;
        match &self.file {
            Some(file) => file.write_all_at(piece, at),
            None => Ok(()),
        }
    }
}

impl<R: Files> Disk for FileDisk<R>
where
    R::File: FileExt,
{
    ghost history = { λ _. None };

    ghost faults = { λ d. d.faults };

    fn length(&mut self) -> Result<u64, DiskFault> {
        match self.measure() {
            Ok(length) => Ok(length),
            Err(_) => Err(self.fail()),
        }
    }

    fn read_at(&mut self, at: u64, buf: &mut [u8]) -> Result<(), DiskFault> {
        match self.fill(at, buf) {
            Ok(()) => Ok(()),
            Err(_) => Err(self.fail()),
        }
    }

    fn write_at(&mut self, at: u64, piece: &[u8]) -> Result<(), DiskFault> {
        match self.put(at, piece) {
            Ok(()) => Ok(()),
            Err(_) => Err(self.fail()),
        }
    }

    fn sync(&mut self) -> Result<(), DiskFault> {
        match self.flush() {
            Ok(()) => Ok(()),
            Err(_) => Err(self.fail()),
        }
    }
}
