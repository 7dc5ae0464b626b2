//! How a library is polled.
ghost use Rattle.std.specs.Prelude.{◌≡◌, ◌↔◌, ◌+◌, ◌<◌, ◌≤◌, true, false, length, slice_get, MatchOption, IsNone, Some};
ghost use Rattle.library_api.specs.Causes.{IsNothing, IsStale, IsNotYet, IsLeaseLost, IsRefused, OfNoLease, IsEarly, HasLostLease, OfRefusal};
ghost use Rattle.library_api.specs.Ends.{belongings};
ghost use Rattle.library_api.specs.Known.{holds, session_at};
ghost use Rattle.library_api.specs.Polls.{LoadsCount, LoadsWord, LoadsLate, IsLatest, IsNewLease, OnHolding, HasHold, session_of, event_of, after_poll, polled, notice_event, after_notice, message_event, after_message, after_grant, saw_word, after_taking_up, taken_up, popped_since, found_in, word_seen, published_seen, shows, waits_for, notice_of};

use crate::ends::Links;
use crate::event::Event;
use crate::library::Library;
use crate::reading::{Message, Reading};
use crate::waited::WaitKind;
use lease_core::{Notice, Standing, Word};

impl Library {
    /// Beats, and takes up the message that is kept, or else the next notice.
    pub fn poll(&mut self, links: &Links) -> Event
        requires seat { self.old.ends.seat.table ≡ links.now.leases.now }
        requires head { self.old.ends.head.ring ≡ links.now.notices.now }
        ensures library { self.new ≡ after_poll self.old (polled self.old self.new) }
        ensures belongings { belongings self.new.ends ≡ belongings self.old.ends }
        ensures event { result ≡ event_of self.old (polled self.old self.new) }

        // The cause of each event but a message and a grant.
        ensures nothing { IsNothing result ↔ IsNone (taken_up self.old.kept (popped_since self.old self.new)) }
        ensures stale { IsStale result ↔ OfNoLease self.old (taken_up self.old.kept (popped_since self.old self.new)) }
        ensures not_yet { let o = polled self.old self.new in IsNotYet result ↔ IsEarly self.old o.found (taken_up self.old.kept o.popped) }
        ensures lease_lost { let o = polled self.old self.new in IsLeaseLost result ↔ HasLostLease self.old o.found (taken_up self.old.kept o.popped) }
        ensures refused { IsRefused result ↔ OfRefusal (taken_up self.old.kept (popped_since self.old self.new)) }

        // Where no message is kept, what a pop tells: the ring was empty exactly where the pushed
        // count that it loaded is that of the popped notices, and of the notices of which a
        // meeting told the first is given.
        ensures empty { IsNone self.old.kept → (IsNone (popped_since self.old self.new) ↔ (self.new.ends.head.pushed ≡ length self.old.ends.head.popped)) }
        ensures told { IsNone self.old.kept → 0 < length self.old.ends.head.told → popped_since self.old self.new ≡ slice_get self.old.ends.head.told 0 }
        ensures heard { IsNone self.old.kept → length self.old.ends.head.popped + length self.old.ends.head.told ≤ self.new.ends.head.pushed }
        ensures later { self.old.ends.head.pushed ≤ self.new.ends.head.pushed }

        // A published count that is loaded isn't less than one that was known, and no word that is
        // loaded is older than one that was.
        ensures count { let o = polled self.old self.new in let n = taken_up self.old.kept o.popped in LoadsCount self.old n → (session_at self.old (session_of n)).published ≤ o.found.published }
        ensures word { let o = polled self.old self.new in let n = taken_up self.old.kept o.popped in LoadsWord self.old o.found n → IsLatest self.old.ends.seat (session_of n) o.found.word }
        ensures lease { let o = polled self.old self.new in let n = taken_up self.old.kept o.popped in LoadsWord self.old o.found n → IsNewLease self.old.ends.seat (session_of n) o.found.word }

        // After a grant and a message its lease is held.
        ensures held { OnHolding result (HasHold self.new) }
    {
        let notice = self.take_up(links);
        let event = self.answer(links, notice);
        self.wait(waits_for(&event));
        event
    }

    // Beats, and takes up the message that is kept, or else the next notice.
    fn take_up(&mut self, links: &Links) -> Option<Notice>
        requires seat { self.old.ends.seat.table ≡ links.now.leases.now }
        requires head { self.old.ends.head.ring ≡ links.now.notices.now }
        ensures library { self.new ≡ after_taking_up self.old self.new.ends.head.pushed (popped_since self.old self.new) }
        ensures belongings { belongings self.new.ends ≡ belongings self.old.ends }
        ensures notice { result ≡ taken_up self.old.kept (popped_since self.old self.new) }
        ensures empty { IsNone self.old.kept → (IsNone (popped_since self.old self.new) ↔ (self.new.ends.head.pushed ≡ length self.old.ends.head.popped)) }
        ensures told { IsNone self.old.kept → 0 < length self.old.ends.head.told → popped_since self.old self.new ≡ slice_get self.old.ends.head.told 0 }
        ensures heard { IsNone self.old.kept → length self.old.ends.head.popped + length self.old.ends.head.told ≤ self.new.ends.head.pushed }
        ensures later { self.old.ends.head.pushed ≤ self.new.ends.head.pushed }
    {
        links.leases.beat(&mut self.ends.seat);
        match self.kept.take() {
            Some(message) => Some(Notice::Message {
                s: message.s,
                lease: message.lease,
                pos: message.pos,
                bytes: message.bytes,
            }),
            None => links.notices.pop(&mut self.ends.head),
        }
    }

    // What is answered on a notice.
    fn answer(&mut self, links: &Links, notice: Option<Notice>) -> Event
        requires seat { self.old.ends.seat.table ≡ links.now.leases.now }
        ensures library { self.new ≡ after_notice self.old (found_in self.new notice) notice }
        ensures belongings { belongings self.new.ends ≡ belongings self.old.ends }
        ensures event { result ≡ notice_event self.old (found_in self.new notice) notice }
        ensures late { LoadsLate self.old (found_in self.new notice) notice }
        ensures held { OnHolding result (HasHold self.new) }
        ensures head { self.new.ends.head ≡ self.old.ends.head }
    {
        match notice {
            None => Event::Nothing,
            Some(
                Notice::Granted {
                    nr,
                    s,
                    lease,
                    from,
                    start,
                },
            ) => {
                self.unanswered = None;
                match self.on_grant(links, s, lease, from) {
                    None => Event::Granted {
                        nr,
                        s,
                        lease,
                        from,
                        start,
                    },
                    Some(seen) => Event::LeaseLost { s, lease, seen },
                }
            }
            Some(Notice::Refused { nr, s, why }) => {
                self.unanswered = None;
                Event::Refused { nr, s, why }
            }
            Some(
                Notice::Message {
                    s,
                    lease,
                    pos,
                    bytes,
                },
            ) => self.on_message(
                links,
                Message {
                    s,
                    lease,
                    pos,
                    bytes,
                },
            ),
        }
    }

    // A grant: its lease is held from now on where the word of the session shows it. Otherwise the
    // word is answered.
    fn on_grant(&mut self, links: &Links, s: u16, lease: u32, from: u64) -> Option<Word>
        requires seat { self.old.ends.seat.table ≡ links.now.leases.now }
        ensures library { let w = word_seen self.new.ends.seat s in self.new ≡ after_grant (saw_word self.old s w) s lease from (shows self.old.ends.seat.knows.number lease w) }
        ensures belongings { belongings self.new.ends ≡ belongings self.old.ends }
        ensures lost { let w = word_seen self.new.ends.seat s in MatchOption result (shows self.old.ends.seat.knows.number lease w ≡ true) (λ seen. (seen ≡ w) × (shows self.old.ends.seat.knows.number lease w ≡ false)) }
        ensures latest { IsLatest self.old.ends.seat s (word_seen self.new.ends.seat s) }
        ensures lease { IsNewLease self.old.ends.seat s (word_seen self.new.ends.seat s) }
        ensures held { IsNone result → HasHold self.new s lease }
        ensures head { self.new.ends.head ≡ self.old.ends.head }
    {
        let word = self.see(links, s);
        if shows(word, self.ends.number, lease) {
            self.set_reading(s, Reading { lease, next: from });
            None
        } else {
            self.set_reading(s, Reading::NONE);
            Some(word)
        }
    }

    // A message: it is handed on where its lease is held, its position is published, and the word
    // of the session shows the lease then.
    fn on_message(&mut self, links: &Links, message: Message) -> Event
        requires seat { self.old.ends.seat.table ≡ links.now.leases.now }
        ensures library { let found = found_in self.new (Some (notice_of message)) in self.new ≡ after_message self.old message (holds self.old message.s message.lease) (shows self.old.ends.seat.knows.number message.lease found.word) found }
        ensures belongings { belongings self.new.ends ≡ belongings self.old.ends }
        ensures event { let found = found_in self.new (Some (notice_of message)) in result ≡ message_event message (holds self.old message.s message.lease) (shows self.old.ends.seat.knows.number message.lease found.word) found }
        ensures count { holds self.old message.s message.lease ≡ true → (session_at self.old message.s).published ≤ published_seen self.new.ends.seat message.s }
        ensures latest { holds self.old message.s message.lease ≡ true → message.pos < published_seen self.new.ends.seat message.s → IsLatest self.old.ends.seat message.s (word_seen self.new.ends.seat message.s) }
        ensures lease { holds self.old message.s message.lease ≡ true → message.pos < published_seen self.new.ends.seat message.s → IsNewLease self.old.ends.seat message.s (word_seen self.new.ends.seat message.s) }
        ensures held { OnHolding result (HasHold self.new) }
        ensures head { self.new.ends.head ≡ self.old.ends.head }
    {
        let (s, lease, pos) = (message.s, message.lease, message.pos);
        if !self.holds(links, s, lease) {
            return Event::Stale { s, lease, pos };
        }
        let published = self.arrived(links, s);
        if published <= pos {
            self.kept = Some(message);
            return Event::NotYet { s, pos, published };
        }
        let word = self.see(links, s);
        if !shows(word, self.ends.number, lease) {
            self.set_reading(s, Reading::NONE);
            let seen = word;
            return Event::LeaseLost { s, lease, seen };
        }
        let next = pos + 1;
        self.set_reading(s, Reading { lease, next });
        Event::Message {
            s,
            lease,
            pos,
            bytes: message.bytes,
        }
    }
}

// Whether the word shows this lease as active, and the library of this number as its owner.
fn shows(word: Word, number: u8, lease: u32) -> bool
    ensures { result ≡ shows number lease word }
{
    word.lease > 0
        && matches!(word.standing, Standing::Active)
        && word.owner == number
        && word.lease == lease
}

// What a poll with this answer waited for.
fn waits_for(event: &Event) -> WaitKind
    ensures { result ≡ waits_for event.now }
{
    match event {
        Event::Nothing | Event::NotYet { .. } => WaitKind::Event,
        _ => WaitKind::Free,
    }
}
