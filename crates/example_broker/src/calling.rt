//! The calls of a library that this program makes, each with its answer and what the library knows behind it.

ghost use Rattle.std.specs.Prelude.{◌≡◌, ℕ, Result, false, true};
ghost use Rattle.library_api.specs.Ends.{belongings};
ghost use Rattle.library_api.specs.declared.refusal.AskError.{AskError as WhyNotAsked};
ghost use Rattle.library_api.specs.declared.refusal.HandRefusal.{HandRefusal as WhyNotHanded};
ghost use Rattle.library_api.specs.declared.refusal.Released.{Released as WasReleased};
ghost use Rattle.library_calls.specs.Calls.{Hands, Polls, Releases, Requests};
ghost use Rattle.example_broker.specs.Answers.{TriesOnce};
ghost use Rattle.example_broker.specs.Trades.{FindsNoRoom, GivesBack, SaysDone};

use library_api::{
    AskError, Event, HandRefusal, Library, Links, ReleaseRefusal, Released, SendRefusal,
};

/// What became of a send.
#[derive(Drop)]
pub enum Try {
    Sent,
    /// The lane had no room, and the text comes back.
    Full(Vec<u8>),
    Refused,
}

/// Polls once.
pub(crate) fn poll(library: &mut Library, links: &Links) -> Event
    requires table { library.old.ends.seat.table ≡ links.now.leases.now }
    requires head { library.old.ends.head.ring ≡ links.now.notices.now }
    ensures polls { Polls result library.old library.new }
    ensures belongings { belongings library.new.ends ≡ belongings library.old.ends }
{
    library.poll(links)
}

/// Sends a text once.
pub(crate) fn try_send(library: &mut Library, links: &Links, s: u16, text: Vec<u8>) -> Try
    requires table { library.old.ends.seat.table ≡ links.now.leases.now }
    ensures tries { TriesOnce s text.items result library.old library.new }
    ensures belongings { belongings library.new.ends ≡ belongings library.old.ends }
{
    match library.send(links, s, text) {
        Ok(_sent) => Try::Sent,
        Err((SendRefusal::LaneFull { .. }, back)) => Try::Full(back),
        Err((_why, _back)) => Try::Refused,
    }
}

/// Requests a session with its messages from a position on.
pub(crate) fn request(library: &mut Library, links: &Links, s: u16, from: u64)
    requires tail { library.old.ends.tail.ring ≡ links.now.commands.now }
    ensures requests { (answer : Result ℕ WhyNotAsked) × Requests s from answer library.old library.new }
    ensures belongings { belongings library.new.ends ≡ belongings library.old.ends }
{
    let _ = requested(library, links, s, from);
}

fn requested(library: &mut Library, links: &Links, s: u16, from: u64) -> Result<u32, AskError>
    requires tail { library.old.ends.tail.ring ≡ links.now.commands.now }
    ensures requests { Requests s from result library.old library.new }
    ensures belongings { belongings library.new.ends ≡ belongings library.old.ends }
{
    library.request(links, s, from)
}

/// Hands a session to another library.
pub(crate) fn hand(library: &mut Library, links: &Links, s: u16, heir: u8)
    requires table { library.old.ends.seat.table ≡ links.now.leases.now }
    ensures hands { (answer : Result WasReleased WhyNotHanded) × Hands s heir answer library.old library.new }
    ensures belongings { belongings library.new.ends ≡ belongings library.old.ends }
{
    let _ = handed(library, links, s, heir);
}

fn handed(library: &mut Library, links: &Links, s: u16, heir: u8) -> Result<Released, HandRefusal>
    requires table { library.old.ends.seat.table ≡ links.now.leases.now }
    ensures hands { Hands s heir result library.old library.new }
    ensures belongings { belongings library.new.ends ≡ belongings library.old.ends }
{
    match library.release_to(links, s, heir) {
        Ok(released) => Ok(released),
        Err(why) => Err(why),
    }
}

/// Gives a session back.
pub(crate) fn give_back(library: &mut Library, links: &Links, s: u16)
    requires table { library.old.ends.seat.table ≡ links.now.leases.now }
    ensures releases { GivesBack s library.old library.new }
    ensures belongings { belongings library.new.ends ≡ belongings library.old.ends }
{
    let _ = released(library, links, s);
}

fn released(library: &mut Library, links: &Links, s: u16) -> Result<Released, ReleaseRefusal>
    requires table { library.old.ends.seat.table ≡ links.now.leases.now }
    ensures releases { Releases s result library.old library.new }
    ensures belongings { belongings library.new.ends ≡ belongings library.old.ends }
{
    match library.release(links, s) {
        Ok(released) => Ok(released),
        Err(why) => Err(why),
    }
}

/// Says that nothing more comes, and whether all was done. Answers whether the ring of commands had room for that.
pub(crate) fn say_done(library: &mut Library, links: &Links, finished: bool) -> bool
    requires tail { library.old.ends.tail.ring ≡ links.now.commands.now }
    ensures said { result ≡ true → SaysDone finished library.old library.new }
    ensures unsaid { result ≡ false → FindsNoRoom finished library.old library.new }
    ensures belongings { belongings library.new.ends ≡ belongings library.old.ends }
{
    match library.done(links, finished) {
        Ok(()) => true,
        Err(_full) => false,
    }
}
