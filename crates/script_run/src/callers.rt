//! A library of a run, and its calls.

ghost use Rattle.std.specs.Prelude.{◌≡◌, false, OnErr, OnOk};
ghost use Rattle.library_api.specs.Ends.{belongings};
ghost use Rattle.script_run.specs.Calls.{CallsAs};
ghost use Rattle.script_text.specs.Lawful.{ActFits};

use gate_io::NoMemory;
use library_api::{Library, Links};
use library_calls::make_call;
use run_report::Call;
use script_text::LibStep;
use std::alloc::Global;

/// A library as a run has it, with its number and its calls so far.
#[derive(Drop)]
pub struct Caller {
    pub(crate) number: u8,
    pub(crate) library: Library,
    pub(crate) calls: Vec<Call>,
}

impl Caller {
    /// Makes the call that a step is, and keeps it with its answer. Without memory it isn't made.
    pub(crate) fn call(
        &mut self,
        alloc: Global,
        links: &Links,
        act: &LibStep,
    ) -> Result<(), NoMemory>
        requires table { self.old.library.ends.seat.table ≡ links.now.leases.now }
        requires tail { self.old.library.ends.tail.ring ≡ links.now.commands.now }
        requires head { self.old.library.ends.head.ring ≡ links.now.notices.now }
        requires fits { ActFits false act.now }
        ensures calls { OnOk result (CallsAs act.now self.old self.new) }
        ensures library_stays { OnErr result (self.new.library ≡ self.old.library) }
        ensures calls_stay { OnErr result (self.new.calls.items ≡ self.old.calls.items) }
        ensures belongings { belongings self.new.library.ends ≡ belongings self.old.library.ends }
        ensures number { self.new.number ≡ self.old.number }
    {
        self.calls.reserve(1)?;
        let call = make_call(alloc, &mut self.library, links, act)?;
        self.calls.push(call).unwrap();
        Ok(())
    }
}
