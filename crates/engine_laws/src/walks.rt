//! Laws of the way in which a turn is made. Each is the contract of a function that does nothing.

ghost use Rattle.std.specs.Prelude.{ℕ, ◌+◌, List, slice_index_or};
ghost use Rattle.engine_laws.specs.Account.{cutting, done};
ghost use Rattle.engine_laws.specs.walks.Walks.{ReadMove, TurnStep, Walk, WriteMove, read_so_far};
ghost use Rattle.engine_loop.specs.Turns.{AtWire, GivesTurn, MakesTurn, TakesTurn, at_wire, with_moment};
ghost use Rattle.engine_loop.specs.declared.records.Taken.{Taken};
ghost use Rattle.engine_loop.specs.declared.records.Turn.{Turn};
ghost use Rattle.gate_io.specs.declared.wires.WireGot.{WireGot};
ghost use Rattle.lease_desk.specs.Desk.{InTurn};
ghost use Rattle.session_desk.specs.declared.routes.Routes.{Routes};
ghost use Rattle.wire_desk.specs.Steps.{HandlesNext, Reads, ReadsAs, Sessions, WritesInTurn, WrittenSoFar};

/// A turn is a walk of steps, and to read a connection, or to write to connections, is a walk of moves. So what each
/// step and each move keeps, a turn keeps.
pub fn turns_are_walks()
    // A turn from its moment on, and its halves.
    ensures takes { (reading : ℕ) (old new : AtWire) (taken : Taken) → TakesTurn reading old new taken → Walk TurnStep (at_wire (with_moment reading old.engine) old.door old.links) new }
    ensures gives { (old new : AtWire) (taken : Taken) (turn : Turn) → GivesTurn old new taken turn → Walk TurnStep old new }
    ensures turn { (reading : ℕ) (old new : AtWire) (turn : Turn) → MakesTurn reading old new turn → Walk TurnStep (at_wire (with_moment reading old.engine) old.door old.links) new }
    // So many pieces are handled; what follows from a read's answer; and all that a read brings.
    ensures handles { (routes : Routes) (k at until count : ℕ) (old new : Sessions) → InTurn (λ i. HandlesNext routes k at until) count old new
        → Walk (ReadMove routes k at until) (read_so_far cutting old.desk) (read_so_far cutting new.desk) }
    ensures reads_as { (answer : WireGot) (routes : Routes) (k : ℕ) (buffer : List ℕ) (at until : ℕ) (old new : Sessions) → ReadsAs answer routes k buffer at until old new
        → Walk (ReadMove routes k at until) (read_so_far done old.desk) (read_so_far done new.desk) }
    ensures reads { (answer : WireGot) (routes : Routes) (k : ℕ) (buffer : List ℕ) (at until : ℕ) (old new : Sessions) → Reads answer routes k buffer at until old new
        → Walk (ReadMove routes k at until) (read_so_far done old.desk) (read_so_far done new.desk) }
    // So many connections are written to.
    ensures writes { (places : List ℕ) (count : ℕ) (old new : WrittenSoFar) → WritesInTurn places count old new → Walk WriteMove old.sessions.desk new.sessions.desk }
{}
