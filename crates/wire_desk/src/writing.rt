//! A connection is written to.

ghost use Rattle.std.specs.Prelude.{◌≡◌, ◌+◌, ◌<◌, ◌≤◌, length, take, false, IfOk, IsSome, None, OnOk, true, OnErr};
ghost use Rattle.connection_core.specs.Outgoing.{waiting_text};
ghost use Rattle.connection_core.specs.declared.limits.TheConstants.{MOST_WRITTEN};
ghost use Rattle.gate_io.specs.Wire.{IsOpen, LinkGoesOn, OthersStay};
ghost use Rattle.gate_io.specs.declared.wires.TheConstants.{MOST_CONNECTIONS, MOST_DIALLED};
ghost use Rattle.lease_desk.specs.Desk.{AllAgree};
ghost use Rattle.session_desk.specs.Steps.{IsSteady};
ghost use Rattle.switchboard.specs.Board.{connection_at};
ghost use Rattle.switchboard.specs.Going.{IsWrittenAsBefore};
ghost use Rattle.switchboard.specs.Stops.{NothingIsTold};
ghost use Rattle.wire_desk.specs.Dials.{IsDialling, WaitBehindEnded};
ghost use Rattle.wire_desk.specs.Lines.{IsOpenPlace, IsSetUp, IsWired, TookWhatIsWritten, standing, stands_at};
ghost use Rattle.wire_desk.specs.Places.{AreInOrder, open_places};
ghost use Rattle.wire_desk.specs.Planned.{OnceAsPlanned, TurnsAsPlanned};
ghost use Rattle.wire_desk.specs.Steps.{AreApart, AreOnWire, AreOpenFrom, GoesOnWriting, HasStopped, PartsIfNeeded, PreparesTo, Progresses, ProgressesUnread, ProgressesWriting, Writes, WritesInTurn, WritesOnce, WritesSome, cause_behind, sessions_of, written_so_far};
ghost use Rattle.wire_desk.specs.Stops.{StopsWriting};

use crate::desk::WireDesk;
use crate::dialling::{Dialler, dialling_goes_on};
use crate::laws::lines_progress;
use crate::reading::part;
use crate::written::{Stop, Written, Wrote};
use connection_core::MOST_WRITTEN;
use gate_io::{LAST_MOMENT, NoMemory, Wire, WireWrote};
use lease_desk::LeaseDesk;
use lease_desk::laws::boards_stay_in_step;
use lease_words::Leases;
use session_core::Cause;
use session_desk::laws::sessions_proceed;
use switchboard::Switchboard;
use switchboard::laws::{boards_go_on, boards_stay_ready, ready_boards_allow, stops_are_told};

impl WireDesk {
    /// Writes what waits on a connection that isn't closed, of a dialled one whose Logon isn't answered its
    /// first item alone, until the wire took all of it, or as much as a turn has for a connection, or takes
    /// no more. Behind a fault the connection ends, and so does one on which too many items wait. One that
    /// has ended is closed.
    pub fn write<W: Wire>(
        &self,
        desk: &mut LeaseDesk,
        leases: &Leases,
        wire: &mut W,
        k: usize,
    ) -> Result<Written, NoMemory>
        requires set_up { IsSetUp leases.now desk.old self.now }
        requires on_wire { AreOnWire desk.old.board (W.door wire.old) (W.link wire.old) }
        requires open_place { IsOpenPlace desk.old.board (W.link wire.old) k }
        ensures nothing { OnErr result (NothingIsTold desk.old.board desk.new.board) }
        ensures writes { IfOk result (λ written. Writes written k (W.link wire.old (connection_at desk.old.board k).number) (W.link wire.new (connection_at desk.old.board k).number)
            (sessions_of desk.old self.now.unkept.items) (sessions_of desk.new self.now.unkept.items)) }
        ensures goes_on { LinkGoesOn (W.link wire.old (connection_at desk.old.board k).number) (W.link wire.new (connection_at desk.old.board k).number) }
        ensures door { W.door wire.new ≡ W.door wire.old }
        ensures others { OthersStay (W.link wire.old) (W.link wire.new) (connection_at desk.old.board k).number }
        ensures closed { OnOk result (IsSome (connection_at desk.new.board k).cause → (W.link wire.new (connection_at desk.old.board k).number).closed ≡ true) }
        ensures set_up { OnOk result (IsSetUp leases.now desk.new self.now) }
        ensures on_wire { OnOk result (AreOnWire desk.new.board (W.door wire.new) (W.link wire.new)) }
        ensures progresses { OnOk result (ProgressesWriting k desk.old.board desk.new.board) }
        ensures agree { AllAgree desk.new.board desk.new.seat }
        ensures none_comes { length desk.new.board.connections ≡ length desk.old.board.connections }
        ensures sessions_stay { length desk.new.board.sessions ≡ length desk.old.board.sessions }
    {
        boards_go_on();
        sessions_proceed();
        lines_progress();
        stops_are_told();
        prepare(desk, k)?;
        let written = write_all(desk, wire, k);
        end_behind(desk, k, written.stop)?;
        close_if_ended(desk, wire, k);
        Ok(written)
    }

    /// Writes to each connection that isn't closed, in the order of their numbers, and lists those that
    /// have ended no longer: they are closed, and the sessions of dialled ones among them wait. Answers how
    /// many bytes were written on all of them.
    pub fn write_all_open<W: Wire>(
        &mut self,
        desk: &mut LeaseDesk,
        leases: &Leases,
        dialler: &mut Dialler,
        wire: &mut W,
        at: u64,
    ) -> Result<usize, NoMemory>
        requires moment { at ≤ LAST_MOMENT }
        requires set_up { IsSetUp leases.now desk.old self.old }
        requires wired { IsWired desk.old.board (open_places self.old) (W.door wire.old) (W.link wire.old) }
        requires apart { AreApart (open_places self.old) }
        requires few { length (open_places self.old) ≤ MOST_CONNECTIONS + MOST_DIALLED }
        requires dialling { IsDialling desk.old.board (W.door wire.old) dialler.old }
        ensures stops { OnErr result (StopsWriting (open_places self.old) (written_so_far desk.old self.old.unkept.items (W.link wire.old) 0) desk.new) }
        ensures writes { IfOk result (λ bytes. WritesInTurn (open_places self.old) (length (open_places self.old))
            (written_so_far desk.old self.old.unkept.items (W.link wire.old) 0) (written_so_far desk.new self.old.unkept.items (W.link wire.new) bytes)) }
        ensures door { W.door wire.new ≡ W.door wire.old }
        ensures set_up { OnOk result (IsSetUp leases.now desk.new self.new) }
        ensures waits { OnOk result (WaitBehindEnded desk.new.board self.old.dialled.items at dialler.old dialler.new) }
        ensures dialling { OnOk result (IsDialling desk.new.board (W.door wire.new) dialler.new) }
        ensures accepted { OnOk result (self.new.accepted.items ≡ standing desk.new.board self.old.accepted.items) }
        ensures dialled { OnOk result (self.new.dialled.items ≡ standing desk.new.board self.old.dialled.items) }
        ensures wired { OnOk result (IsWired desk.new.board (open_places self.new) (W.door wire.new) (W.link wire.new)) }
        ensures apart { OnOk result (AreApart (open_places self.new)) }
        ensures in_order { OnOk result (AreInOrder self.old → AreInOrder self.new) }
        ensures progresses { OnOk result (ProgressesUnread desk.old.board desk.new.board) }
        ensures agree { AllAgree desk.new.board desk.new.seat }
        ensures none_comes { length desk.new.board.connections ≡ length desk.old.board.connections }
        ensures sessions_stay { length desk.new.board.sessions ≡ length desk.old.board.sessions }
        ensures rest { self.new ≡ record self.old { accepted = self.new.accepted; dialled = self.new.dialled } }
        ensures made { dialler.new ≡ record dialler.old { next = dialler.new.next } }
    {
        dialling_goes_on();
        let bytes = self.write_each(desk, leases, wire)?;
        dialler.wait_behind_ended(desk, self, at);
        self.drop_ended(desk);
        Ok(bytes)
    }

    /// Writes to each connection that isn't closed, in the order of their numbers.
    fn write_each<W: Wire>(
        &self,
        desk: &mut LeaseDesk,
        leases: &Leases,
        wire: &mut W,
    ) -> Result<usize, NoMemory>
        requires set_up { IsSetUp leases.now desk.old self.now }
        requires on_wire { AreOnWire desk.old.board (W.door wire.old) (W.link wire.old) }
        requires open_places { AreOpenFrom 0 desk.old.board (W.link wire.old) (open_places self.now) }
        requires apart { AreApart (open_places self.now) }
        requires few { length (open_places self.now) ≤ MOST_CONNECTIONS + MOST_DIALLED }
        ensures stops { OnErr result (StopsWriting (open_places self.now) (written_so_far desk.old self.now.unkept.items (W.link wire.old) 0) desk.new) }
        ensures writes { IfOk result (λ bytes. WritesInTurn (open_places self.now) (length (open_places self.now))
            (written_so_far desk.old self.now.unkept.items (W.link wire.old) 0) (written_so_far desk.new self.now.unkept.items (W.link wire.new) bytes)) }
        ensures door { W.door wire.new ≡ W.door wire.old }
        ensures set_up { OnOk result (IsSetUp leases.now desk.new self.now) }
        ensures on_wire { OnOk result (AreOnWire desk.new.board (W.door wire.new) (W.link wire.new)) }
        ensures progresses { OnOk result (ProgressesUnread desk.old.board desk.new.board) }
        ensures agree { AllAgree desk.new.board desk.new.seat }
        ensures none_comes { length desk.new.board.connections ≡ length desk.old.board.connections }
        ensures sessions_stay { length desk.new.board.sessions ≡ length desk.old.board.sessions }
    {
        boards_go_on();
        lines_progress();
        let mut bytes = 0;
        for i in 0..self.open_count() {
            let k = self.open_place(i);
            let written = self.write(desk, leases, wire, k)?;
            bytes += written.bytes;
        }
        Ok(bytes)
    }

    /// The connections that have ended are listed no longer.
    fn drop_ended(&mut self, desk: &LeaseDesk)
        ensures accepted { self.new.accepted.items ≡ standing desk.now.board self.old.accepted.items }
        ensures dialled { self.new.dialled.items ≡ standing desk.now.board self.old.dialled.items }
        ensures rest { self.new ≡ record self.old { accepted = self.new.accepted; dialled = self.new.dialled } }
    {
        keep_standing(&mut self.accepted, &desk.board);
        keep_standing(&mut self.dialled, &desk.board);
    }
}

/// Keeps the places whose connection stands.
fn keep_standing(places: &mut Vec<usize>, board: &Switchboard)
    ensures { places.new.items ≡ standing board.now places.old.items }
{
    places.retain(|k| stands(board, *k));
}

/// Whether a connection stands at this place.
fn stands(board: &Switchboard, k: usize) -> bool
    ensures { result ≡ stands_at board.now k }
{
    k < board.connections() && !board.connection(k).has_ended()
}

/// Makes the texts of what waits on a connection, as much as a turn has for it; on a dialled one whose
/// Logon isn't answered, that of its first item alone.
fn prepare(desk: &mut LeaseDesk, k: usize) -> Result<(), NoMemory>
    requires steady { IsSteady desk.old.board desk.old.seat }
    requires connection { k < length desk.old.board.connections }
    ensures prepares { OnOk result (PreparesTo (connection_at desk.old.board k).session k desk.old.board desk.new.board) }
    ensures goes_on { GoesOnWriting k desk.old.board desk.new.board }
    ensures written { IsWrittenAsBefore (connection_at desk.old.board k) (connection_at desk.new.board k) }
    ensures steady { IsSteady desk.new.board desk.new.seat }
    ensures agree { AllAgree desk.new.board desk.new.seat }
    ensures none_comes { length desk.new.board.connections ≡ length desk.old.board.connections }
    ensures sessions_stay { length desk.new.board.sessions ≡ length desk.old.board.sessions }
    ensures seat { desk.new.seat ≡ desk.old.seat }
{
    boards_stay_ready();
    boards_stay_in_step();
    boards_go_on();
    ready_boards_allow();
    match desk.board.connection(k).session() {
        Some(s) => desk.board.prepare(usize::from(s), k, MOST_WRITTEN),
        None => Ok(()),
    }
}

/// Writes what waits on a connection, until the wire took all of it, or as much as a turn has for a
/// connection, or takes no more.
fn write_all<W: Wire>(desk: &mut LeaseDesk, wire: &mut W, k: usize) -> Written
    requires steady { IsSteady desk.old.board desk.old.seat }
    requires connection { k < length desk.old.board.connections }
    requires open_still { IsOpen (W.door wire.old) (W.link wire.old) (connection_at desk.old.board k).number }
    requires written { TookWhatIsWritten (W.link wire.old (connection_at desk.old.board k).number) (connection_at desk.old.board k) }
    ensures writes { WritesSome k result.bytes desk.old.board desk.new.board }
    ensures most { result.bytes ≤ MOST_WRITTEN }
    ensures planned { TurnsAsPlanned (W.link wire.old (connection_at desk.old.board k).number) (length (waiting_text (connection_at desk.old.board k).out.outgoing)) result (W.link wire.new (connection_at desk.old.board k).number) }
    ensures left { (W.link wire.new (connection_at desk.old.board k).number).left ≡ (W.link wire.old (connection_at desk.old.board k).number).left }
    ensures stopped { HasStopped result.stop result.bytes (connection_at desk.new.board k) (W.link wire.old (connection_at desk.old.board k).number) (W.link wire.new (connection_at desk.old.board k).number) }
    ensures written { TookWhatIsWritten (W.link wire.new (connection_at desk.old.board k).number) (connection_at desk.new.board k) }
    ensures goes_on { LinkGoesOn (W.link wire.old (connection_at desk.old.board k).number) (W.link wire.new (connection_at desk.old.board k).number) }
    ensures open_still { IsOpen (W.door wire.new) (W.link wire.new) (connection_at desk.old.board k).number }
    ensures door { W.door wire.new ≡ W.door wire.old }
    ensures others { OthersStay (W.link wire.old) (W.link wire.new) (connection_at desk.old.board k).number }
    ensures changes { GoesOnWriting k desk.old.board desk.new.board }
    ensures steady { IsSteady desk.new.board desk.new.seat }
    ensures seat { desk.new.seat ≡ desk.old.seat }
{
    let mut bytes = 0;
    while bytes < MOST_WRITTEN {
        match write_once(desk, wire, k, MOST_WRITTEN - bytes) {
            Wrote::Bytes(n) => bytes += n,
            Wrote::Stopped(stop) => return Written { bytes, stop },
        }
    }
    Written {
        bytes,
        stop: Stop::MostWritten,
    }
}

/// Writes once, at most so many bytes.
fn write_once<W: Wire>(desk: &mut LeaseDesk, wire: &mut W, k: usize, limit: usize) -> Wrote
    requires steady { IsSteady desk.old.board desk.old.seat }
    requires connection { k < length desk.old.board.connections }
    requires open_still { IsOpen (W.door wire.old) (W.link wire.old) (connection_at desk.old.board k).number }
    requires written { TookWhatIsWritten (W.link wire.old (connection_at desk.old.board k).number) (connection_at desk.old.board k) }
    requires some { 0 < limit }
    ensures writes { WritesOnce limit k result (W.link wire.old (connection_at desk.old.board k).number) (W.link wire.new (connection_at desk.old.board k).number) desk.old.board desk.new.board }
    ensures planned { OnceAsPlanned (W.link wire.old (connection_at desk.old.board k).number) (length (take limit (waiting_text (connection_at desk.old.board k).out.outgoing))) result (W.link wire.new (connection_at desk.old.board k).number) }
    ensures left { (W.link wire.new (connection_at desk.old.board k).number).left ≡ (W.link wire.old (connection_at desk.old.board k).number).left }
    ensures written { TookWhatIsWritten (W.link wire.new (connection_at desk.old.board k).number) (connection_at desk.new.board k) }
    ensures goes_on { LinkGoesOn (W.link wire.old (connection_at desk.old.board k).number) (W.link wire.new (connection_at desk.old.board k).number) }
    ensures open_still { IsOpen (W.door wire.new) (W.link wire.new) (connection_at desk.old.board k).number }
    ensures door { W.door wire.new ≡ W.door wire.old }
    ensures others { OthersStay (W.link wire.old) (W.link wire.new) (connection_at desk.old.board k).number }
    ensures changes { GoesOnWriting k desk.old.board desk.new.board }
    ensures steady { IsSteady desk.new.board desk.new.seat }
    ensures seat { desk.new.seat ≡ desk.old.seat }
{
    boards_stay_ready();
    boards_stay_in_step();
    let connection = desk.board.connection(k);
    let piece = connection.waiting(limit);
    if piece.is_empty() {
        return Wrote::Stopped(Stop::AllTaken);
    }
    match wire.write(connection.number(), piece) {
        WireWrote::Bytes(n) => {
            desk.board.wrote(k, n);
            Wrote::Bytes(n)
        }
        WireWrote::Blocked => Wrote::Stopped(Stop::Blocked),
        WireWrote::Failed => Wrote::Stopped(Stop::Failed),
    }
}

/// A connection that stands ends behind a fault, or where too many items wait.
fn end_behind(desk: &mut LeaseDesk, k: usize, stop: Stop) -> Result<(), NoMemory>
    requires steady { IsSteady desk.old.board desk.old.seat }
    requires connection { k < length desk.old.board.connections }
    ensures nothing { OnErr result (NothingIsTold desk.old.board desk.new.board) }
    ensures ends { OnOk result (PartsIfNeeded (cause_behind stop (connection_at desk.old.board k)) k desk.old.board desk.new.board) }
    ensures steady { OnOk result (IsSteady desk.new.board desk.new.seat) }
    ensures progresses { OnOk result (Progresses k desk.old.board desk.new.board) }
    ensures agree { AllAgree desk.new.board desk.new.seat }
    ensures none_comes { length desk.new.board.connections ≡ length desk.old.board.connections }
    ensures sessions_stay { length desk.new.board.sessions ≡ length desk.old.board.sessions }
    ensures seat { desk.new.seat ≡ desk.old.seat }
{
    lines_progress();
    let connection = desk.board.connection(k);
    if connection.has_ended() {
        return Ok(());
    }
    let cause = match stop {
        Stop::Failed => Some(Cause::WriteFault),
        _ => connection.slow_cause(),
    };
    match cause {
        Some(cause) => part(desk, k, cause),
        None => Ok(()),
    }
}

/// A connection that has ended is closed.
fn close_if_ended<W: Wire>(desk: &LeaseDesk, wire: &mut W, k: usize)
    requires connection { k < length desk.now.board.connections }
    requires open_still { IsOpen (W.door wire.old) (W.link wire.old) (connection_at desk.now.board k).number }
    ensures closed { IsSome (connection_at desk.now.board k).cause → (W.link wire.new (connection_at desk.now.board k).number).closed ≡ true }
    ensures stands { (connection_at desk.now.board k).cause ≡ None → (W.link wire.new (connection_at desk.now.board k).number).closed ≡ false }
    ensures left { (W.link wire.new (connection_at desk.now.board k).number).left ≡ (W.link wire.old (connection_at desk.now.board k).number).left }
    ensures plan { (W.link wire.new (connection_at desk.now.board k).number).plan ≡ (W.link wire.old (connection_at desk.now.board k).number).plan }
    ensures written { (W.link wire.new (connection_at desk.now.board k).number).written ≡ (W.link wire.old (connection_at desk.now.board k).number).written }
    ensures goes_on { LinkGoesOn (W.link wire.old (connection_at desk.now.board k).number) (W.link wire.new (connection_at desk.now.board k).number) }
    ensures door { W.door wire.new ≡ W.door wire.old }
    ensures others { OthersStay (W.link wire.old) (W.link wire.new) (connection_at desk.now.board k).number }
{
    let connection = desk.board.connection(k);
    if connection.has_ended() {
        wire.close(connection.number());
    }
}
