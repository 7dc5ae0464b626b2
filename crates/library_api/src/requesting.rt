//! What a library asks of the engine.
ghost use Rattle.std.specs.Prelude.{◌≡◌, ◌↔◌, ◌≤◌, length, IsErr, IsSome, IfErr, None};
ghost use Rattle.ring_links.specs.Ends.{IsFull};
ghost use Rattle.library_api.specs.Ends.{belongings};
ghost use Rattle.library_api.specs.Requests.{after_asking, after_request, after_done, IsOutstanding, IsAsksSpent, IsRingFull, MayAsk, CarriesAsked};

use crate::ends::Links;
use crate::library::Library;
use crate::refusal::AskError;
use crate::waited::WaitKind;
use lease_core::Command;
use ring_links::Full;

impl Library {
    /// Requests a session, with its messages from position `from` on, and answers the request's
    /// number. A poll has the answer to it, and until then there is no other request.
    pub fn request(&mut self, links: &Links, s: u16, from: u64) -> Result<u32, AskError>
        requires links { self.old.ends.tail.ring ≡ links.now.commands.now }
        ensures library { self.new ≡ after_request self.old s from self.new.ends.tail.taken result }
        ensures belongings { belongings self.new.ends ≡ belongings self.old.ends }

        ensures outstanding { IsOutstanding result ↔ IsSome self.old.unanswered }
        ensures asks_spent { IsAsksSpent result ↔ ((self.old.unanswered ≡ None) × (self.old.asked ≡ self.old.asks)) }
        ensures ring_full { IsRingFull result ↔ (MayAsk self.old × IsFull links.now.commands.now.capacity (length self.old.ends.tail.pushed) self.new.ends.tail.taken) }
        ensures carries { CarriesAsked self.old self.new.ends.tail.taken result }

        // No taken count is less than one that was known.
        ensures later { self.old.ends.tail.taken ≤ self.new.ends.tail.taken }
    {
        let answer = self.ask(links, s, from);
        self.wait(match answer {
            Err(AskError::RingFull { .. }) => WaitKind::Asks,
            _ => WaitKind::Free,
        });
        answer
    }

    /// Tells the engine that the library requests nothing more, and whether all its work was done.
    /// Where the ring of commands has no room it is to be told again.
    pub fn done(&mut self, links: &Links, finished: bool) -> Result<(), Full<Command>>
        requires links { self.old.ends.tail.ring ≡ links.now.commands.now }
        ensures library { self.new ≡ after_done self.old (Command.Done finished) self.new.ends.tail.taken result }
        ensures belongings { belongings self.new.ends ≡ belongings self.old.ends }
        ensures full { IsErr result ↔ IsFull links.now.commands.now.capacity (length self.old.ends.tail.pushed) self.new.ends.tail.taken }
        ensures carries { IfErr result (λ f. (f.item ≡ Command.Done finished) × (f.pushed ≡ length self.old.ends.tail.pushed) × (f.taken ≡ self.new.ends.tail.taken)) }
        ensures later { self.old.ends.tail.taken ≤ self.new.ends.tail.taken }
    {
        let answer = links
            .commands
            .push(&mut self.ends.tail, Command::Done { finished });
        self.wait(match answer {
            Ok(()) => WaitKind::Free,
            Err(_) => WaitKind::Done,
        });
        answer
    }

    // Makes the request, unless something stands against it.
    fn ask(&mut self, links: &Links, s: u16, from: u64) -> Result<u32, AskError>
        requires links { self.old.ends.tail.ring ≡ links.now.commands.now }
        ensures library { self.new ≡ after_asking self.old s from self.new.ends.tail.taken result }
        ensures belongings { belongings self.new.ends ≡ belongings self.old.ends }
        ensures outstanding { IsOutstanding result ↔ IsSome self.old.unanswered }
        ensures asks_spent { IsAsksSpent result ↔ ((self.old.unanswered ≡ None) × (self.old.asked ≡ self.old.asks)) }
        ensures ring_full { IsRingFull result ↔ (MayAsk self.old × IsFull links.now.commands.now.capacity (length self.old.ends.tail.pushed) self.new.ends.tail.taken) }
        ensures carries { CarriesAsked self.old self.new.ends.tail.taken result }
        ensures later { self.old.ends.tail.taken ≤ self.new.ends.tail.taken }
    {
        if let Some(nr) = self.unanswered {
            return Err(AskError::Outstanding { nr });
        }
        if self.asked == self.asks {
            return Err(AskError::AsksSpent { count: self.asked });
        }
        let nr = self.asked + 1;
        match links
            .commands
            .push(&mut self.ends.tail, Command::Request { nr, s, from })
        {
            Ok(()) => {
                self.asked = nr;
                self.unanswered = Some(nr);
                Ok(nr)
            }
            Err(full) => Err(AskError::RingFull {
                pushed: full.pushed,
                taken: full.taken,
            }),
        }
    }
}
