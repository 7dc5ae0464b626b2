//! What comes at the wire.

ghost use Rattle.std.specs.Prelude.{◌≡◌, ◌≤◌, ℕ, OnOk, length};
ghost use Rattle.fix_frame.specs.Frame.{IsBody, frame_of};
ghost use Rattle.fix_frame.specs.declared.layout.TheConstants.{LONGEST_FRAME};
ghost use Rattle.gate_io.specs.MemWire.{ChangesLink, IsMade, LinkState, SameButRoom, WireState, link_given, state_at, wire_reserved};
ghost use Rattle.script_run.specs.Comes.{ComesAs, FitsOn, next_of};
ghost use Rattle.script_text.specs.Lawful.{IsMade as IsNumbered};
ghost use Rattle.script_text.specs.SoFar.{numbers_with};
ghost use Rattle.engine_loop.specs.Lines.{StaysKnown};

use engine_loop::laws::wires_stay_known;
use fix_frame::{FrameError, write_frame};
use gate_io::{MemWire, NoMemory};
use script_text::Step;
use std::alloc::Global;

/// For how many written bytes, at least, each connection that isn't closed has room as a turn begins.
const ROOM: usize = 1_048_576;

/// What a step does at the wire. One of the clock, of the engine or of a library does nothing there.
pub(crate) fn come(
    alloc: Global,
    wire: &mut MemWire,
    step: &Step,
    _libraries: usize,
) -> Result<(), NoMemory>
    requires fits { FitsOn _libraries wire.old step.now }
    ensures comes { OnOk result (ComesAs step.now wire.old wire.new) }
    ensures stays { StaysKnown wire.old wire.new }
    ensures made { OnOk result (next_of wire.new ≡ numbers_with step.now (next_of wire.old)) }
{
    wires_stay_known();
    numbers_stay();
    match step {
        Step::Connect => {
            wire.connect(alloc)?;
        }
        Step::Take => wire.take(alloc)?,
        Step::Bytes { c, bytes } => give(alloc, wire, *c, bytes.as_slice())?,
        Step::Frame { c, body } => give_frame(alloc, wire, *c, body.as_slice())?,
        Step::Finish { c } => wire.finish(*c),
        Step::FailRead { c } => wire.fail_read(*c),
        Step::FailWrite { c, after } => wire.fail_write(*c, *after),
        Step::Block { c, after } => wire.block(*c, *after),
        Step::Unblock { c } => wire.unblock(*c),
        Step::At { .. } | Step::Turn | Step::Lib { .. } => {}
    }
    Ok(())
}

/// Bytes can be read from a connection, unless its input was ended or it is closed.
fn give(alloc: Global, wire: &mut MemWire, c: u32, bytes: &[u8]) -> Result<(), NoMemory>
    requires made { IsMade wire.old c }
    ensures comes { OnOk result (ChangesLink wire.old c (link_given (state_at wire.old c) bytes.now) wire.new) }
    ensures stays { StaysKnown wire.old wire.new }
    ensures made { OnOk result (next_of wire.new ≡ next_of wire.old) }
{
    wires_stay_known();
    numbers_stay();
    wire.give(alloc, c, bytes)
}

/// The same of the frame of a body.
fn give_frame(alloc: Global, wire: &mut MemWire, c: u32, body: &[u8]) -> Result<(), NoMemory>
    requires made { IsMade wire.old c }
    requires is_body { IsBody body.now }
    requires short { length (frame_of body.now) ≤ LONGEST_FRAME }
    ensures comes { OnOk result (ChangesLink wire.old c (link_given (state_at wire.old c) (frame_of body.now)) wire.new) }
    ensures stays { StaysKnown wire.old wire.new }
    ensures made { OnOk result (next_of wire.new ≡ next_of wire.old) }
{
    wires_stay_known();
    match write_frame(alloc, body) {
        Ok(frame) => give(alloc, wire, c, frame.as_slice()),
        Err(FrameError::OutOfMemory) => Err(NoMemory::OutOfMemory),
        Err(FrameError::TooLong { .. }) => unreachable!(),
    }
}

/// Each connection that isn't closed has room for what a turn writes to it.
pub(crate) fn make_room(alloc: Global, wire: &mut MemWire) -> Result<(), NoMemory>
    ensures room { OnOk result (wire.new ≡ wire_reserved ROOM wire.old) }
    ensures stays { StaysKnown wire.old wire.new }
    ensures made { next_of wire.new ≡ next_of wire.old }
{
    wires_stay_known();
    numbers_stay();
    wire.reserve(alloc, ROOM)
}

/// What happens to the connections of a wire in memory makes no new one.
fn numbers_stay()
    ensures changed { (old new : WireState) (c : ℕ) (link : LinkState) → ChangesLink old c link new → next_of new ≡ next_of old }
    ensures reserved { (old new : WireState) → SameButRoom old new → next_of new ≡ next_of old }
    // A connection that an earlier line made is there.
    ensures there { (w : WireState) (c : ℕ) → IsNumbered (next_of w) c → IsMade w c }
{}
