//! The engine's side of a table, as rows and threads play it.
ghost use Rattle.std.specs.Prelude.{◌≡◌, ◌<◌, false, true, length, IfSome, None, Some};
ghost use Rattle.std.specs.Option.{ForSome};
ghost use Rattle.lease_core.specs.declared.limits.TheConstants.{MOST_LEASES};
ghost use Rattle.lease_words.specs.Leases.{is_running};
ghost use Rattle.lease_words.specs.Views.{engine_at};

use crate::library::Library;
use crate::steps;
use lease_core::{MOST_LEASES, Word};
use lease_words::{EngineSeat, Item, Leases};

/// The engine's seat, and what it knows of the session that it saw last.
#[derive(Drop)]
pub(crate) struct Engine<'a> {
    pub(crate) leases: &'a Leases,
    pub(crate) seat: EngineSeat,
    sessions: u16,
    // The session of which a lease is active, by the last look or grant.
    running: Option<u16>,
    // The session of which none is active, by the last look, and which can be granted once more.
    ended: Option<u16>,
    // Nothing was done yet.
    is_new: bool,
    ghost at_table: { seat.table ≡ leases.now },
    ghost sessions_are: { leases.now.shape.sessions ≡ sessions },
    ghost is_there: { ForSome running (λ s. s < sessions) },
    ghost is_active: { ForSome running (λ s. is_running (engine_at seat s).lines ≡ true) },
    ghost has_ended: { ForSome ended (λ s. (is_running (engine_at seat s).lines ≡ false) × (length (engine_at seat s).lines < MOST_LEASES)) },
    ghost unpublished: { is_new ≡ true → (engine_at seat 0).published ≡ 0 },
}

// The session that is known, where it is this one.
fn only(known: Option<u16>, s: u16) -> Option<u16>
    ensures session { IfSome result (λ at. at ≡ s) }
    ensures known { IfSome result (λ at. known ≡ Some at) }
{
    match known {
        Some(at) if at == s => known,
        _ => None,
    }
}

impl<'a> Engine<'a> {
    /// The engine of a new table for so many sessions.
    pub(crate) fn new(leases: &'a Leases, seat: EngineSeat, sessions: u16) -> Engine<'a>
        requires table { seat.table ≡ leases.now }
        requires sessions { leases.now.shape.sessions ≡ sessions }
        requires published { (engine_at seat 0).published ≡ 0 }
        ensures { result.leases ≡ leases.entry }
    {
        Engine {
            leases,
            seat,
            sessions,
            running: None,
            ended: None,
            is_new: true,
        }
    }

    /// The engine of a table for so many sessions, of which it knows nothing.
    pub(crate) fn of(leases: &'a Leases, seat: EngineSeat, sessions: u16) -> Engine<'a>
        requires table { seat.table ≡ leases.now }
        requires sessions { leases.now.shape.sessions ≡ sessions }
        ensures { result.leases ≡ leases.entry }
    {
        Engine {
            leases,
            seat,
            sessions,
            running: None,
            ended: None,
            is_new: false,
        }
    }

    /// The session's word.
    pub(crate) fn look(&mut self, s: u16) -> Option<Word>
        ensures { self.new.leases ≡ self.old.leases }
    {
        if s >= self.sessions {
            return None;
        }
        self.forget();
        let (word, is_active) = steps::look(self.leases, &mut self.seat, s);
        if is_active {
            self.running = Some(s);
        } else if word.lease < MOST_LEASES {
            self.ended = Some(s);
        }
        Some(word)
    }

    /// Whether a lease of the session is active by the last look or grant.
    pub(crate) fn is_running(&self, s: u16) -> bool {
        only(self.running, s).is_some()
    }

    // Nothing is known of the next session that is seen.
    fn forget(&mut self)
        ensures kept { (self.new.leases ≡ self.old.leases) × (self.new.seat ≡ self.old.seat) × (self.new.sessions ≡ self.old.sessions) }
        ensures forgotten { (self.new.running ≡ None) × (self.new.ended ≡ None) × (self.new.is_new ≡ false) }
    {
        self.running = None;
        self.ended = None;
        self.is_new = false;
    }

    /// Takes the session back, where a lease is active by the last look or grant.
    pub(crate) fn revoke(&mut self, s: u16) -> Option<Word>
        ensures { self.new.leases ≡ self.old.leases }
    {
        let s = only(self.running, s)?;
        self.forget();
        Some(steps::revoke(self.leases, &mut self.seat, s))
    }

    /// The next item that the last look or revoke showed.
    pub(crate) fn take(&mut self, s: u16) -> Option<Item>
        ensures { self.new.leases ≡ self.old.leases }
    {
        if s >= self.sessions {
            return None;
        }
        let (running, ended) = (only(self.running, s), only(self.ended, s));
        self.forget();
        let item = steps::take(self.leases, &mut self.seat, s);
        self.running = running;
        self.ended = ended;
        item
    }

    /// Grants the session, where no lease is active by the last look and all is taken that it showed.
    pub(crate) fn grant(&mut self, s: u16, library: u8) -> Option<u32>
        ensures { self.new.leases ≡ self.old.leases }
    {
        if s >= self.sessions || library == 0 || library > self.leases.libraries() {
            return None;
        }
        let s = only(self.ended, s)?;
        self.forget();
        if steps::take(self.leases, &mut self.seat, s).is_some() {
            return None;
        }
        let lease = steps::grant(self.leases, &mut self.seat, s, library);
        self.running = Some(s);
        Some(lease)
    }

    /// Publishes the count of a new table's first session.
    pub(crate) fn publish(&mut self, count: u64) -> bool
        ensures { self.new.leases ≡ self.old.leases }
    {
        if self.sessions == 0 || !self.is_new {
            return false;
        }
        self.forget();
        steps::publish(self.leases, &mut self.seat, 0, count);
        true
    }

    /// How often the library has beaten.
    pub(crate) fn beats(&mut self, library: u8) -> Option<u64>
        ensures { self.new.leases ≡ self.old.leases }
    {
        if library == 0 || library > self.leases.libraries() {
            return None;
        }
        self.forget();
        Some(steps::beats(self.leases, &mut self.seat, library))
    }

    /// Meets a library of its table.
    pub(crate) fn meet(&mut self, library: &mut Library<'a>)
        requires { library.old.leases ≡ self.old.leases }
        ensures engine { self.new.leases ≡ self.old.leases }
        ensures library { library.new.leases ≡ library.old.leases }
    {
        let s = self.running.unwrap_or(0);
        let running = only(self.running, s);
        self.forget();
        steps::meet(self.leases, &mut self.seat, &mut library.seat, s);
        self.running = running;
    }

    /// Takes a library's seat in.
    pub(crate) fn settle(&mut self, library: Library<'a>)
        requires { library.leases ≡ self.old.leases }
        ensures { self.new.leases ≡ self.old.leases }
    {
        let s = self.running.unwrap_or(0);
        let running = only(self.running, s);
        self.forget();
        steps::settle(self.leases, &mut self.seat, library.seat, s);
        self.running = running;
    }
}
