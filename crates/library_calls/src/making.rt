//! The making of one call.

ghost use Rattle.std.specs.Prelude.{◌≡◌, false, IfOk, OnErr};
ghost use Rattle.library_api.specs.Ends.{belongings};
ghost use Rattle.library_calls.specs.Calls.{Hands, MakesCall, Releases, Sends};
ghost use Rattle.script_text.specs.Lawful.{ActFits};

use gate_io::{Bytes, NoMemory};
use lease_words::Sent;
use library_api::{HandRefusal, Library, Links, ReleaseRefusal, Released, SendRefusal};
use run_report::Call;
use script_text::LibStep;
use std::alloc::Global;

/// Makes the call that a step is, and hands it back with its answer. Memory is wanted by a send alone, for two
/// copies of its body, and without it the call isn't made. `answer` and `read` are no calls: each is carried out
/// by as many polls as it takes.
pub fn make_call(
    alloc: Global,
    library: &mut Library,
    links: &Links,
    act: &LibStep,
) -> Result<Call, NoMemory>
    requires table { library.old.ends.seat.table ≡ links.now.leases.now }
    requires tail { library.old.ends.tail.ring ≡ links.now.commands.now }
    requires head { library.old.ends.head.ring ≡ links.now.notices.now }
    requires fits { ActFits false act.now }
    ensures makes { IfOk result (λ call. MakesCall act.now call library.old library.new) }
    ensures err { OnErr result (library.new ≡ library.old) }
    ensures belongings { belongings library.new.ends ≡ belongings library.old.ends }
{
    match act {
        LibStep::Request { s, from } => Ok(request(library, links, *s, *from)),
        LibStep::Poll => Ok(poll(library, links)),
        LibStep::Send { s, body } => send(alloc, library, links, *s, body.as_slice()),
        LibStep::Release { s } => Ok(release(library, links, *s)),
        LibStep::Hand { s, heir } => Ok(hand(library, links, *s, *heir)),
        LibStep::Beat => {
            library.beat(links);
            Ok(Call::Beat)
        }
        LibStep::Answer | LibStep::Read { .. } => unreachable!(),
    }
}

// A request.
fn request(library: &mut Library, links: &Links, s: u16, from: u64) -> Call
    requires tail { library.old.ends.tail.ring ≡ links.now.commands.now }
    ensures makes { MakesCall (LibStep.Request s from) result library.old library.new }
    ensures belongings { belongings library.new.ends ≡ belongings library.old.ends }
{
    let answer = library.request(links, s, from);
    Call::Request { s, from, answer }
}

// A poll.
fn poll(library: &mut Library, links: &Links) -> Call
    requires table { library.old.ends.seat.table ≡ links.now.leases.now }
    requires head { library.old.ends.head.ring ≡ links.now.notices.now }
    ensures makes { MakesCall LibStep.Poll result library.old library.new }
    ensures belongings { belongings library.new.ends ≡ belongings library.old.ends }
{
    let event = library.poll(links);
    Call::Poll { event }
}

// A send. What is kept of it has a body of its own.
fn send(
    alloc: Global,
    library: &mut Library,
    links: &Links,
    s: u16,
    body: &[u8],
) -> Result<Call, NoMemory>
    requires table { library.old.ends.seat.table ≡ links.now.leases.now }
    ensures makes { IfOk result (λ call. MakesCall (LibStep.Send s body.now) call library.old library.new) }
    ensures err { OnErr result (library.new ≡ library.old) }
    ensures belongings { belongings library.new.ends ≡ belongings library.old.ends }
{
    let kept = Vec::from_slice(alloc, body)?;
    let sent = Vec::from_slice(alloc, body)?;
    let answer = send_body(library, links, s, sent);
    Ok(Call::Send {
        s,
        body: Bytes::of(kept),
        answer,
    })
}

// Sends a body, which is dropped where it isn't sent.
fn send_body(
    library: &mut Library,
    links: &Links,
    s: u16,
    body: Vec<u8>,
) -> Result<Sent, SendRefusal>
    requires table { library.old.ends.seat.table ≡ links.now.leases.now }
    ensures sends { Sends s body.items result library.old library.new }
    ensures belongings { belongings library.new.ends ≡ belongings library.old.ends }
{
    match library.send(links, s, body) {
        Ok(sent) => Ok(sent),
        Err((why, _)) => Err(why),
    }
}

// A release.
fn release(library: &mut Library, links: &Links, s: u16) -> Call
    requires table { library.old.ends.seat.table ≡ links.now.leases.now }
    ensures makes { MakesCall (LibStep.Release s) result library.old library.new }
    ensures belongings { belongings library.new.ends ≡ belongings library.old.ends }
{
    let answer = released(library, links, s);
    Call::Release { s, answer }
}

fn released(library: &mut Library, links: &Links, s: u16) -> Result<Released, ReleaseRefusal>
    requires table { library.old.ends.seat.table ≡ links.now.leases.now }
    ensures releases { Releases s result library.old library.new }
    ensures belongings { belongings library.new.ends ≡ belongings library.old.ends }
{
    match library.release(links, s) {
        Ok(released) => Ok(released),
        Err(why) => Err(why),
    }
}

// A release to an heir.
fn hand(library: &mut Library, links: &Links, s: u16, heir: u8) -> Call
    requires table { library.old.ends.seat.table ≡ links.now.leases.now }
    ensures makes { MakesCall (LibStep.Hand s heir) result library.old library.new }
    ensures belongings { belongings library.new.ends ≡ belongings library.old.ends }
{
    let answer = handed(library, links, s, heir);
    Call::Hand { s, heir, answer }
}

fn handed(library: &mut Library, links: &Links, s: u16, heir: u8) -> Result<Released, HandRefusal>
    requires table { library.old.ends.seat.table ≡ links.now.leases.now }
    ensures hands { Hands s heir result library.old library.new }
    ensures belongings { belongings library.new.ends ≡ belongings library.old.ends }
{
    match library.release_to(links, s, heir) {
        Ok(released) => Ok(released),
        Err(why) => Err(why),
    }
}
