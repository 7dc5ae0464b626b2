//! The two sides of a row's table.
ghost use Rattle.std.specs.Prelude.{◌≡◌};
ghost use Rattle.std.specs.Option.{ForSome};
ghost use Rattle.lease_words.specs.Views.{engine_at};

use crate::acts::{Act, act_of, do_act};
use crate::calls::{Call, call_of, make_call};
use crate::engine::Engine;
use crate::library::Library;
use crate::rows::Played;
use lease_words::{EngineSeat, Leases, LibrarySeat};
use row_text::Words;
use row_text::answers::{Answer, made, text};
use std::alloc::Global;

/// What is done in a row.
#[derive(Clone, Copy)]
enum Deed<'a> {
    Acts(Act),
    Calls(Call<'a>),
    // The two tell each other what they did; and the engine takes the library's seat in.
    Meet,
    Settle,
}

fn deed_of<'a>(name: &str, words: &mut Words<'a>) -> Option<Deed<'a>> {
    Some(match name {
        "meet" => Deed::Meet,
        "settle" => Deed::Settle,
        "look" | "number" | "grant" | "revoke" | "take" | "publish" | "beats" => {
            Deed::Acts(act_of(name, words)?)
        }
        _ => Deed::Calls(call_of(name, words)?),
    })
}

/// The engine, and library 1 as long as it isn't settled.
#[derive(Drop)]
pub(crate) struct Sides<'a> {
    engine: Engine<'a>,
    library: Option<Library<'a>>,
    ghost one_table: { ForSome library (λ l. l.leases ≡ engine.leases) },
}

// The library of a seat, where there is one.
fn library_of<'a>(leases: &'a Leases, seat: Option<LibrarySeat>) -> Option<Library<'a>>
    requires { ForSome seat (λ seat. seat.table ≡ leases.now) }
    ensures { ForSome result (λ library. library.leases ≡ leases.entry) }
{
    match seat {
        Some(seat) => Some(Library::new(leases, seat)),
        None => None,
    }
}

impl<'a> Sides<'a> {
    /// The sides of a new table for so many sessions.
    pub(crate) fn new(
        leases: &'a Leases,
        sessions: u16,
        engine: EngineSeat,
        library: Option<LibrarySeat>,
    ) -> Sides<'a>
        requires engine { engine.table ≡ leases.now }
        requires sessions { leases.now.shape.sessions ≡ sessions }
        requires published { (engine_at engine 0).published ≡ 0 }
        requires library { ForSome library (λ seat. seat.table ≡ leases.now) }
    {
        Sides {
            engine: Engine::new(leases, engine, sessions),
            library: library_of(leases, library),
        }
    }

    fn call(&mut self, alloc: Global, what: Call<'_>) -> Answer {
        let Some(mut library) = self.library.take() else {
            return text(alloc, "no library");
        };
        let answer = make_call(alloc, &mut library, what);
        self.library = Some(library);
        answer
    }

    // Says whether there was a library.
    fn meet(&mut self) -> bool {
        let Some(mut library) = self.library.take() else {
            return false;
        };
        self.engine.meet(&mut library);
        self.library = Some(library);
        true
    }

    fn settle(&mut self) -> bool {
        let Some(library) = self.library.take() else {
            return false;
        };
        self.engine.settle(library);
        true
    }

    fn does(&mut self, alloc: Global, deed: Deed<'_>) -> Answer {
        match deed {
            Deed::Acts(what) => do_act(alloc, &mut self.engine, what),
            Deed::Calls(what) => self.call(alloc, what),
            Deed::Meet => made(alloc, self.meet()),
            Deed::Settle => made(alloc, self.settle()),
        }
    }
}

impl Played for Sides<'_> {
    fn answer(&mut self, alloc: Global, command: &str) -> Option<Answer> {
        let mut words = Words::of(command);
        let name = words.word()?;
        let deed = deed_of(name, &mut words)?;
        if !words.is_over() {
            return None;
        }
        Some(self.does(alloc, deed))
    }
}
