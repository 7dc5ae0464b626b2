//! When the system is asked which sockets are ready, and what it said.

use crate::port::Port;
use gate_io::{FIRST_DIALLED, MOST_DIALLED};
use mio::net::{TcpListener, TcpStream};
use mio::{Events, Interest, Poll, Token, Waker};
use std::alloc::Global;
use std::io;
use std::io::ErrorKind;
use std::net::{Net, ToSocketAddrs};
use std::time::Duration;
use thread_bells::Bell;

/// The places of all connections of a run: those that are accepted, and behind them those that are
/// dialled. A connection's number is its place.
pub const PLACES: u32 = FIRST_DIALLED + MOST_DIALLED;

/// The most polls that the end of a run makes for connections that aren't drained yet.
pub const END_ROUNDS: u32 = 100;

/// The milliseconds that each of these polls waits at most.
pub const END_WAIT: u64 = 20;

/// Names the listener in what the system reports. Connections are named by their numbers.
const DOOR: Token = Token(usize::MAX);

/// Names the bell there.
const BELL: Token = Token(usize::MAX - 1);

/// What came of asking for a connection.
#[derive(Clone, Copy, PartialEq, Eq)]
pub enum Came {
    /// One is in its place.
    New,
    Nothing,
    Failed,
}

/// All sockets of a run, in a poll. Its lists are made once, for all connections that a run can have.
#[derive(Drop)]
pub struct Watch {
    poll: Poll,
    events: Events,
    listener: Option<TcpListener>,
    /// A connection may wait.
    door_ready: bool,
    ports: Vec<Port>,
}

impl Watch {
    /// No socket, in a poll that is woken by this bell. A bell can wake one poll alone.
    pub fn new(net: &impl Net, alloc: Global, bell: &Bell) -> io::Result<Watch> {
        let places = PLACES as usize;
        let events = Events::with_capacity(alloc, places + 2)?;
        let mut ports = Vec::with_capacity(alloc, places)?;
        for _ in 0..places {
            ports.push(Port::vacant())?;
        }
        let poll = Poll::new(net)?;
        if !bell.wake_by(Waker::new(poll.registry(), BELL)?) {
            return Err(io::Error::from(ErrorKind::AlreadyExists));
        }
        Ok(Watch {
            poll,
            events,
            listener: None,
            door_ready: false,
            ports,
        })
    }

    /// Binds the first of the address's addresses that can be bound, in place of what was listened at before.
    pub fn listen(&mut self, net: &impl Net, address: &str) -> io::Result<()> {
        self.listener = None;
        for candidate in address.to_socket_addrs(net)? {
            if let Ok(listener) = TcpListener::bind(net, candidate) {
                return self.admit(listener);
            }
        }
        Err(io::Error::from(ErrorKind::AddrNotAvailable))
    }

    fn admit(&mut self, mut listener: TcpListener) -> io::Result<()> {
        self.poll
            .registry()
            .register(&mut listener, DOOR, Interest::READABLE)?;
        self.listener = Some(listener);
        self.door_ready = true;
        Ok(())
    }

    /// The port at which it listens.
    pub fn port(&self) -> Option<u16> {
        let address = self.listener.as_ref()?.local_addr().ok()?;
        Some(address.port())
    }

    /// The connection in this place, if there is such a place.
    pub fn at(&mut self, c: u32) -> Option<&mut Port> {
        self.ports.get_mut(c as usize)
    }

    /// Takes a connection that waits into this place.
    pub fn accept(&mut self, c: u32) -> Came {
        if !self.door_ready {
            return Came::Nothing;
        }
        let Some(listener) = &self.listener else {
            return Came::Nothing;
        };
        match listener.accept() {
            Ok((stream, _)) => match self.take_in(c, stream, true) {
                Ok(()) => Came::New,
                Err(_) => Came::Failed,
            },
            Err(error) if error.kind() == ErrorKind::WouldBlock => {
                self.door_ready = false;
                Came::Nothing
            }
            Err(_) => Came::Failed,
        }
    }

    /// Begins to connect to the first of the address's addresses at which that can begin, in this place.
    pub fn dial(&mut self, net: &impl Net, c: u32, address: &str) -> io::Result<()> {
        for candidate in address.to_socket_addrs(net)? {
            if let Ok(stream) = TcpStream::connect(net, candidate) {
                return self.take_in(c, stream, false);
            }
        }
        Err(io::Error::from(ErrorKind::AddrNotAvailable))
    }

    /// Watches a connection under its number, and sends what it is given without delay.
    fn take_in(&mut self, c: u32, mut stream: TcpStream, ready: bool) -> io::Result<()> {
        stream.set_nodelay(true)?;
        let interest = Interest::READABLE | Interest::WRITABLE;
        self.poll
            .registry()
            .register(&mut stream, Token(c as usize), interest)?;
        if let Some(port) = self.ports.get_mut(c as usize) {
            *port = Port::of(stream, ready);
        }
        Ok(())
    }

    /// Asks the system what has become ready, and waits for that so many milliseconds at most. A poll that fails
    /// reports nothing.
    pub fn look(&mut self, ms: u64) {
        let waiting = Some(Duration::from_millis(ms));
        if self.poll.poll(&mut self.events, waiting).is_err() {
            return;
        }
        for event in self.events.iter() {
            let token = event.token();
            if token == DOOR {
                self.door_ready = true;
            } else if let Some(port) = self.ports.get_mut(token.0) {
                port.note(event);
            }
        }
    }

    /// Closes every connection, and drains them for a bounded time.
    pub fn finish(&mut self) {
        for port in self.ports.iter_mut() {
            port.close();
        }
        for _ in 0..END_ROUNDS {
            if !self.ports.iter().any(|port| port.stands()) {
                return;
            }
            self.look(END_WAIT);
        }
    }
}
