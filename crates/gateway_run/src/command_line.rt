//! The program's command line, whatever it is run on: its words, a script that is replayed or a drill, the
//! script that is to be served, the line of a status that isn't Ok, and the exit status.

use crate::replaying::replay;
use crate::statuses::Status;
use command_words::{Chosen, WordsError, command_of};
use gate_io::{FileSource, MemSource, StdSink};
use std::alloc::Global;
use std::process::ExitCode;
use std::{env, io};

/// Carries out the words behind the program's name, where they say to replay a script or a drill.
pub fn program(rt: &HostRuntime) -> ExitCode {
    let status = match words_of(rt) {
        Ok(words) => run(rt, words.as_slice()),
        Err(status) => status,
    };
    end(rt, status)
}

/// The words behind the program's name. Words that aren't text give no command.
pub fn words_of(rt: &HostRuntime) -> Result<Vec<String>, Status> {
    match all_words(rt) {
        Ok(words) => Ok(words),
        Err(e) if e.kind() == io::ErrorKind::InvalidData => Err(Status::Usage),
        Err(_) => Err(Status::OutOfMemory),
    }
}

fn all_words(rt: &HostRuntime) -> io::Result<Vec<String>> {
    let mut args = env::args(rt)?;
    let _program = args.next();
    Ok(args.collect(rt.alloc())?)
}

/// The path of the script that the words say to serve, if they do.
pub fn script_to_serve(alloc: Global, words: &[String]) -> Result<Option<String>, Status> {
    match command_of(alloc, words) {
        Ok(Chosen::Serve { path, .. }) => Ok(Some(path.into_inner())),
        Ok(_) | Err(WordsError::Usage) => Ok(None),
        Err(WordsError::OutOfMemory) => Err(Status::OutOfMemory),
    }
}

/// Carries out the command that the words give, where it is one of `replay`. A drill has no script to read.
pub fn run(rt: &HostRuntime, words: &[String]) -> Status {
    let alloc = rt.alloc();
    let mut out = StdSink::new(*rt);
    match command_of(alloc, words) {
        Ok(Chosen::Replay { path }) => {
            let mut script = FileSource::new(*rt, path.into_inner());
            let (status, _record) = replay(alloc, words, &mut script, &mut out);
            status
        }
        Ok(Chosen::Drill { .. }) => {
            let mut nothing = MemSource::new(Vec::new(alloc), Vec::new(alloc));
            let (status, _record) = replay(alloc, words, &mut nothing, &mut out);
            status
        }
        Ok(Chosen::Serve { .. }) | Err(WordsError::Usage) => Status::Usage,
        Err(WordsError::OutOfMemory) => Status::OutOfMemory,
    }
}

/// Ends the program: prints the line of a status that isn't Ok to standard error.
pub fn end(rt: &HostRuntime, status: Status) -> ExitCode {
    if status != Status::Ok {
        let _ = eprintln!(rt; "{status}");
    }
    ExitCode::from(status.code())
}
