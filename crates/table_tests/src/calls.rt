//! What library 1 calls in a row.
ghost use Rattle.std.specs.Prelude.{◌≡◌};

use crate::library::Library;
use row_text::Words;
use row_text::answers::{Answer, body_of, lease, made, shown, shown_some};
use std::alloc::Global;

/// A call of library 1, mostly on a session.
#[derive(Clone, Copy)]
pub(crate) enum Call<'a> {
    See(u16),
    Held(u16),
    // A look, and the lease that is then held.
    Hold(u16),
    // A look, and a send by the lease that is then held; a send by the lease that was held before.
    Send(u16, &'a str),
    SendOn(u16, &'a str),
    Release(u16),
    ReleaseTo(u16, u8),
    Arrived(u16),
    Beat,
}

/// The call of this name. It is None where there is none, or the words are others.
pub(crate) fn call_of<'a>(name: &str, words: &mut Words<'a>) -> Option<Call<'a>> {
    Some(match name {
        "see" => Call::See(words.u16()?),
        "held" => Call::Held(words.u16()?),
        "hold" => Call::Hold(words.u16()?),
        "send" => Call::Send(words.u16()?, words.word()?),
        "send_on" => Call::SendOn(words.u16()?, words.word()?),
        "release" => Call::Release(words.u16()?),
        "release_to" => Call::ReleaseTo(words.u16()?, words.u8()?),
        "arrived" => Call::Arrived(words.u16()?),
        "beat" => Call::Beat,
        _ => return None,
    })
}

fn send(alloc: Global, library: &mut Library<'_>, s: u16, word: &str) -> Answer
    ensures { library.new.leases ≡ library.old.leases }
{
    let body = body_of(alloc, word)?;
    let sending = library.send(alloc, s, body.as_slice())?;
    shown(alloc, &sending)
}

/// Makes it, and says what it came to.
pub(crate) fn make_call(alloc: Global, library: &mut Library<'_>, call: Call<'_>) -> Answer
    ensures { library.new.leases ≡ library.old.leases }
{
    match call {
        Call::See(s) => shown(alloc, &library.see(s)),
        Call::Held(s) => shown(alloc, &library.held(s)),
        Call::Hold(s) => lease(alloc, library.hold(s)),
        Call::Send(s, word) => {
            library.see(s);
            send(alloc, library, s, word)
        }
        Call::SendOn(s, word) => send(alloc, library, s, word),
        Call::Release(s) => shown_some(alloc, library.release(s).as_ref()),
        Call::ReleaseTo(s, heir) => shown_some(alloc, library.release_to(s, heir).as_ref()),
        Call::Arrived(s) => shown(alloc, &library.arrived(s)),
        Call::Beat => {
            library.beat();
            made(alloc, true)
        }
    }
}
