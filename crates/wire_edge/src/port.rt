//! One socket: its bytes in and out, and its end.

ghost use Rattle.std.specs.Prelude.{◌<◌, length};
ghost use Rattle.gate_io.specs.Wire.{WireGotWithin, WireWroteWithin};

use gate_io::{WireGot, WireWrote};
use mio::event::Event;
use mio::net::TcpStream;
use std::io::{Error, ErrorKind, Read, Write};
use std::net::Shutdown;

/// The most reads with bytes that one closed connection is drained with. Behind them it is given up,
/// and what was written last may then be lost to a reset.
pub const DRAIN_READS: u32 = 256;

/// The most bytes that a read of a closed connection drops.
pub const DRAIN_BYTES: usize = 4_096;

/// The place of one connection: its socket, while it has one, and what is known of its readiness.
#[derive(Drop)]
pub struct Port {
    stream: Option<TcpStream>,
    readable: bool,
    writable: bool,
    /// The system reported the end of the input, or an error: it says nothing more of it, so reads go on up to that.
    ended: bool,
    /// The writing side is shut down, and what still comes is dropped.
    closing: bool,
    /// How many more reads with bytes it may be drained with.
    drains: u32,
    /// The round of reads in which it was read last.
    round: u64,
}

impl Port {
    /// A place without a connection.
    pub fn vacant() -> Port {
        Port {
            stream: None,
            readable: false,
            writable: false,
            ended: false,
            closing: false,
            drains: DRAIN_READS,
            round: 0,
        }
    }

    /// A connection, of which it is guessed whether it is ready. A wrong guess costs a system call.
    pub fn of(stream: TcpStream, ready: bool) -> Port {
        Port {
            stream: Some(stream),
            readable: ready,
            writable: ready,
            ended: false,
            closing: false,
            drains: DRAIN_READS,
            round: 0,
        }
    }

    /// Whether it still has a socket.
    pub fn stands(&self) -> bool {
        self.stream.is_some()
    }

    /// Whether it was read in this round.
    pub fn was_read(&self, round: u64) -> bool {
        self.round == round
    }

    /// It is read in this round.
    pub fn enter(&mut self, round: u64) {
        self.round = round;
    }

    /// Takes note of what the system reported. A closed connection is drained at once.
    pub fn note(&mut self, event: &Event) {
        if event.is_readable() || event.is_read_closed() || event.is_error() {
            self.readable = true;
        }
        if event.is_read_closed() || event.is_error() {
            self.ended = true;
        }
        if event.is_writable() || event.is_write_closed() || event.is_error() {
            self.writable = true;
        }
        if self.closing {
            self.drain();
        }
    }

    /// Reads, if the connection is known to be ready. A read that gives less than there is room for has given all, and what
    /// comes behind it the system reports anew.
    pub fn read(&mut self, buf: &mut [u8]) -> WireGot
        ensures { WireGotWithin (length buf.old) result }
    {
        if !self.readable {
            return WireGot::Blocked;
        }
        let Some(stream) = &mut self.stream else {
            return WireGot::Failed;
        };
        match stream.read(buf) {
            Ok(0) => WireGot::End,
            Ok(n) => {
                self.readable = self.ended || n == buf.len();
                WireGot::Bytes(n)
            }
            Err(error) if is_blocked(&error) => {
                self.readable = false;
                WireGot::Blocked
            }
            Err(_) => WireGot::Failed,
        }
    }

    /// Writes, if the connection is known to be ready.
    pub fn write(&mut self, piece: &[u8]) -> WireWrote
        ensures { WireWroteWithin (length piece.now) result }
    {
        if !self.writable {
            return WireWrote::Blocked;
        }
        let Some(stream) = &mut self.stream else {
            return WireWrote::Failed;
        };
        match stream.write(piece) {
            Ok(0) => WireWrote::Failed,
            Ok(n) => WireWrote::Bytes(n),
            Err(error) if is_blocked(&error) => {
                self.writable = false;
                WireWrote::Blocked
            }
            Err(_) => WireWrote::Failed,
        }
    }

    /// Shuts the writing side down, and drops what has come. The socket stays until the
    /// counterparty's input has ended or failed, or it was drained often enough. Where the writing
    /// side can't be shut down it goes at once.
    pub fn close(&mut self) {
        let Some(stream) = &self.stream else {
            return;
        };
        if stream.shutdown(Shutdown::Write).is_err() {
            self.stream = None;
            return;
        }
        self.closing = true;
        self.readable = true;
        self.drain();
    }

    /// Drops what has come, until nothing waits, the input has ended or failed, or it was drained
    /// often enough. The socket stays where nothing waits, and goes else.
    fn drain(&mut self) {
        let mut dropped = [0u8; DRAIN_BYTES];
        for _ in 0..self.drains {
            match self.read(&mut dropped) {
                WireGot::Bytes(_) => self.drains = self.drains.saturating_sub(1),
                WireGot::Blocked => return,
                WireGot::End | WireGot::Failed => break,
            }
        }
        self.stream = None;
    }
}

/// Whether the call is to be made again once the system reports the socket.
fn is_blocked(error: &Error) -> bool {
    error.kind() == ErrorKind::WouldBlock
}
