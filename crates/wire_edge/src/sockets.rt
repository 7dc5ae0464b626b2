//! The sockets of a run, by their connections' numbers.

ghost use Rattle.std.specs.Prelude.{length};
ghost use Rattle.gate_io.specs.Wire.{WireGotWithin, WireWroteWithin};

use crate::watch::{Came, Watch};
use gate_io::{Listened, WireGot, WireWrote};
use std::alloc::Global;
use std::io::ErrorKind;
use std::net::Net;
use std::{io, rt};
use thread_bells::{Bell, Pace, micros};

/// The sockets of a run, from its listen on, and when the system is asked which of them are ready: at a pause, at an
/// accept where no pause came since the accept or read before, where a connection is read a second time since it was
/// asked, and as the run ends. A pause may sleep, beside a bell.
#[derive(Drop)]
pub struct Sockets<'a, R: Net + rt::Clock> {
    net: R,
    alloc: Global,
    bell: &'a Bell,
    watch: Option<Watch>,
    pace: Pace,
    /// A connection ended, failed or was closed, or a sleep ended, and no byte has moved and no connection come since:
    /// what follows from that may still be to be done, so the next pause only asks.
    stirred: bool,
    /// How often the system was asked before the run's end, and once more: the round of reads.
    round: u64,
    /// A pause came, and no accept or read since: the next accept needn't ask again.
    paused: bool,
}

impl<'a, R: Net + rt::Clock> Sockets<'a, R> {
    pub fn new(net: R, alloc: Global, bell: &'a Bell) -> Sockets<'a, R> {
        Sockets {
            net,
            alloc,
            bell,
            watch: None,
            pace: Pace::new(),
            stirred: true,
            round: 1,
            paused: false,
        }
    }

    pub fn listen(&mut self, address: &str) -> Listened {
        match self.begin(address) {
            Ok(()) => Listened::Ready,
            Err(error) if error.kind() == ErrorKind::OutOfMemory => Listened::OutOfMemory,
            Err(_) => Listened::Failed,
        }
    }

    fn begin(&mut self, address: &str) -> io::Result<()> {
        if self.watch.is_none() {
            self.watch = Some(Watch::new(&self.net, self.alloc, self.bell)?);
        }
        match &mut self.watch {
            Some(watch) => watch.listen(&self.net, address),
            None => Ok(()),
        }
    }

    pub fn port(&self) -> Option<u16> {
        self.watch.as_ref()?.port()
    }

    /// Takes a connection that waits, under this number.
    pub fn accept(&mut self, c: u32) -> Came {
        if !self.paused {
            self.look(0);
        }
        self.paused = false;
        let Some(watch) = &mut self.watch else {
            return Came::Nothing;
        };
        let came = watch.accept(c);
        if came == Came::New {
            self.go_on();
        }
        came
    }

    /// Whether connecting has begun, under this number.
    pub fn dial(&mut self, c: u32, address: &str) -> bool {
        match &mut self.watch {
            Some(watch) => watch.dial(&self.net, c, address).is_ok(),
            None => false,
        }
    }

    pub fn read(&mut self, c: u32, buf: &mut [u8]) -> WireGot
        ensures { WireGotWithin (length buf.old) result }
    {
        if self.was_read(c) {
            self.look(0);
        }
        self.paused = false;
        let round = self.round;
        let Some(port) = self.watch.as_mut().and_then(|watch| watch.at(c)) else {
            return WireGot::Failed;
        };
        port.enter(round);
        let got = port.read(buf);
        match got {
            WireGot::Bytes(_) => self.go_on(),
            WireGot::End | WireGot::Failed => self.stir(),
            WireGot::Blocked => {}
        }
        got
    }

    /// Whether this connection was read since the system was asked.
    fn was_read(&mut self, c: u32) -> bool {
        let round = self.round;
        match self.watch.as_mut().and_then(|watch| watch.at(c)) {
            Some(port) => port.was_read(round),
            None => false,
        }
    }

    pub fn write(&mut self, c: u32, piece: &[u8]) -> WireWrote
        ensures { WireWroteWithin (length piece.now) result }
    {
        let Some(port) = self.watch.as_mut().and_then(|watch| watch.at(c)) else {
            return WireWrote::Failed;
        };
        let wrote = port.write(piece);
        match wrote {
            WireWrote::Bytes(_) => self.go_on(),
            WireWrote::Failed => self.stir(),
            WireWrote::Blocked => {}
        }
        wrote
    }

    pub fn close(&mut self, c: u32) {
        if let Some(port) = self.watch.as_mut().and_then(|watch| watch.at(c)) {
            port.close();
        }
        self.stir();
    }

    /// Bytes moved, or a connection came. Whoever makes turns makes another one behind that, before the next pause.
    fn go_on(&mut self) {
        self.stirred = false;
        self.find();
    }

    /// A connection ended, failed or was closed.
    fn stir(&mut self) {
        self.stirred = true;
        self.find();
    }

    /// Something was found.
    fn find(&mut self) {
        if !self.pace.is_idle() {
            return;
        }
        match micros(&self.net) {
            Some(now) => self.pace.found(now),
            None => self.pace = Pace::new(),
        }
    }

    /// Asks the system which sockets are ready, and sleeps until one is, somebody rings, or so many milliseconds have
    /// passed: where nothing happened lately, and asking again at once isn't worth it.
    pub fn pause(&mut self, ms: u32) {
        if ms == 0 || self.asks_again() {
            self.look(0);
        } else {
            self.sleep(u64::from(ms));
        }
        self.paused = true;
    }

    /// Whether the system is to be asked again at once.
    fn asks_again(&mut self) -> bool {
        if self.stirred {
            self.stirred = false;
            return true;
        }
        match micros(&self.net) {
            Some(now) => self.pace.found_nothing(now),
            None => false,
        }
    }

    /// Sleeps beside the bell, unless it was rung.
    fn sleep(&mut self, ms: u64) {
        self.stirred = true;
        if self.bell.lie_down() {
            self.look(ms);
            self.bell.get_up();
        } else {
            self.look(0);
        }
    }

    /// Asks the system which sockets are ready. A round of reads begins.
    fn look(&mut self, ms: u64) {
        self.round = self.round.saturating_add(1);
        if let Some(watch) = &mut self.watch {
            watch.look(ms);
        }
    }

    pub fn finish(&mut self) {
        if let Some(watch) = &mut self.watch {
            watch.finish();
        }
    }
}
