//! What a look at a session's word, or taking the session back, records of its last lease.

ghost use Rattle.std.specs.Prelude.{◌≡◌, ◌≢◌, ℕ, ◌<◌, ◌≤◌, ◌+◌, [], length, map, All, IfSome, OnOk, OnErr, true, false};
ghost use Rattle.std.specs.VecDeque.{deque_capacity, deque_len};
ghost use Rattle.lease_desk.specs.Desk.{Agrees, Gathers, GoesOn, HasRoom, InTurn, IsInStep, Rests, TakesBack, TakesBackFrom, TakesBackSome, TakesItems, owner_at};
ghost use Rattle.lease_words.specs.Facts.{OthersTaken};
ghost use Rattle.lease_words.specs.Leases.{Each, is_running};
ghost use Rattle.lease_words.specs.Tells.{IsSettled};
ghost use Rattle.lease_words.specs.Views.{engine_at, pending};
ghost use Rattle.switchboard.specs.Fit.{IsFit};
ghost use Rattle.switchboard.specs.Board.{book_at, place_at};
ghost use Rattle.switchboard.specs.Stops.{NothingIsTold};

use crate::desk::{GATHERED, LeaseDesk};
use fix_fields::laws::fit_bodies_are_bodies;
use gate_io::{Bytes, LAST_MOMENT, NoMemory};
use lease_core::laws::{lines_tell_the_owner, words_raise_lines};
use lease_words::{EngineSeat, LANE_SLOTS, Leases};
use std::alloc::Global;
use std::collections::VecDeque;
use switchboard::MOST_SESSIONS;
use switchboard::laws::{boards_stay_sound, stops_are_told};

impl LeaseDesk {
    /// Looks at a session's lease word and records what it shows: the sends that came since the last
    /// look, whose items are taken out of the lane, and the release, with a hold until the moment `until`
    /// where it names an heir. On a bound session each send waits on the connection. Without memory
    /// the word isn't looked at.
    pub fn gather(
        &mut self,
        alloc: Global,
        leases: &Leases,
        s: u16,
        at: u64,
        until: u64,
    ) -> Result<(), NoMemory>
        requires table { self.old.seat.table ≡ leases.now }
        requires depth { leases.now.shape.depth ≤ LANE_SLOTS }
        requires moment { at ≤ LAST_MOMENT }
        requires session { s < length self.old.board.sessions }
        requires seated { s < leases.now.shape.sessions }
        requires place { IfSome (place_at self.old.board s) (λ k. k < length self.old.board.connections) }
        requires agrees { Agrees self.old.board self.old.seat s }
        ensures gathers { OnOk result (Gathers s at until self.old self.new) }
        ensures rests { OnErr result (Rests s self.old self.new) }
        ensures nothing { OnErr result (NothingIsTold self.old.board self.new.board) }
        ensures agrees { Agrees self.new.board self.new.seat s }
        ensures table { self.new.seat.table ≡ self.old.seat.table }
        ensures in_step { IsInStep self.old.board self.old.seat → IsInStep self.new.board self.new.seat }
        // Of each library that was settled, the seat then has all that it did of the session; and of the
        // others than the last lease's all was taken before.
        ensures settled { OnOk result (Each (IsSettled s (engine_at self.new.seat s)) self.new.seat.settled) }
        ensures others_taken { OnOk result (OthersTaken leases.now.shape.libraries (engine_at self.new.seat s)) }
        ensures seats { self.new.seat.settled ≡ self.old.seat.settled }
        ensures goes_on { (j : ℕ) → GoesOn self.old.board self.new.board j }
        ensures none_comes { length self.new.board.connections ≡ length self.old.board.connections }
    {
        boards_stay_sound();
        lines_tell_the_owner();
        words_raise_lines();
        self.make_room(alloc, s)?;
        let word = leases.look(&mut self.seat, s);
        take_all(leases, &mut self.seat, s, &mut self.bodies);
        self.board
            .show(alloc, s as usize, word, &mut self.bodies, at, until);
        Ok(())
    }

    /// Takes a session back whose last look showed an active lease, and records what the old word shows
    /// as `gather` does, and then that the lease was taken back, unless its library gave the session
    /// back before. Without memory the session isn't taken back.
    pub fn take_back(
        &mut self,
        alloc: Global,
        leases: &Leases,
        s: u16,
        at: u64,
        until: u64,
    ) -> Result<(), NoMemory>
        requires table { self.old.seat.table ≡ leases.now }
        requires depth { leases.now.shape.depth ≤ LANE_SLOTS }
        requires moment { at ≤ LAST_MOMENT }
        requires session { s < length self.old.board.sessions }
        requires seated { s < leases.now.shape.sessions }
        requires place { IfSome (place_at self.old.board s) (λ k. k < length self.old.board.connections) }
        requires agrees { Agrees self.old.board self.old.seat s }
        requires active { is_running (engine_at self.old.seat s).lines ≡ true }
        ensures taken_back { OnOk result (TakesBack s at until self.old self.new) }
        ensures ended { OnOk result (is_running (engine_at self.new.seat s).lines ≡ false) }
        ensures rests { OnErr result (Rests s self.old self.new) }
        ensures nothing { OnErr result (NothingIsTold self.old.board self.new.board) }
        ensures agrees { Agrees self.new.board self.new.seat s }
        ensures table { self.new.seat.table ≡ self.old.seat.table }
        ensures in_step { IsInStep self.old.board self.old.seat → IsInStep self.new.board self.new.seat }
        ensures goes_on { (j : ℕ) → GoesOn self.old.board self.new.board j }
        ensures none_comes { length self.new.board.connections ≡ length self.old.board.connections }
    {
        boards_stay_sound();
        lines_tell_the_owner();
        self.make_room(alloc, s)?;
        let word = leases.revoke(&mut self.seat, s);
        take_all(leases, &mut self.seat, s, &mut self.bodies);
        self.board
            .time_out(alloc, s as usize, word, &mut self.bodies, at, until);
        Ok(())
    }

    /// Takes back each session that a library has, in the order of their numbers. Without memory those
    /// before one are taken back, each whole.
    pub fn take_back_all(
        &mut self,
        alloc: Global,
        leases: &Leases,
        library: u8,
        at: u64,
        until: u64,
    ) -> Result<(), NoMemory>
        requires table { self.old.seat.table ≡ leases.now }
        requires depth { leases.now.shape.depth ≤ LANE_SLOTS }
        requires moment { at ≤ LAST_MOMENT }
        requires library { 1 ≤ library }
        requires seated { length self.old.board.sessions ≡ leases.now.shape.sessions }
        requires few { leases.now.shape.sessions ≤ MOST_SESSIONS }
        requires in_step { IsInStep self.old.board self.old.seat }
        ensures taken_back { OnOk result (InTurn (TakesBackFrom library at until) (length self.old.board.sessions) self.old self.new) }
        ensures stops { OnErr result (TakesBackSome library at until self.old self.new) }
        ensures gone { OnOk result ((s : ℕ) → s < length self.new.board.sessions → owner_at self.new.board s ≢ library) }
        ensures in_step { IsInStep self.new.board self.new.seat }
        ensures table { self.new.seat.table ≡ self.old.seat.table }
        ensures sessions { length self.new.board.sessions ≡ length self.old.board.sessions }
        ensures goes_on { (j : ℕ) → GoesOn self.old.board self.new.board j }
        ensures none_comes { length self.new.board.connections ≡ length self.old.board.connections }
    {
        for s in 0..self.board.sessions() {
            self.take_back_from(alloc, leases, library, s as u16, at, until)?;
        }
        Ok(())
    }

    // Takes a session back where this library has it.
    fn take_back_from(
        &mut self,
        alloc: Global,
        leases: &Leases,
        library: u8,
        s: u16,
        at: u64,
        until: u64,
    ) -> Result<(), NoMemory>
        requires table { self.old.seat.table ≡ leases.now }
        requires depth { leases.now.shape.depth ≤ LANE_SLOTS }
        requires moment { at ≤ LAST_MOMENT }
        requires library { 1 ≤ library }
        requires session { s < length self.old.board.sessions }
        requires seated { s < leases.now.shape.sessions }
        requires in_step { IsInStep self.old.board self.old.seat }
        ensures taken_back { OnOk result (TakesBackFrom library at until s self.old self.new) }
        ensures nothing { OnErr result (NothingIsTold self.old.board self.new.board) }
        ensures gone { OnOk result (owner_at self.new.board s ≢ library) }
        ensures others { (j : ℕ) → j ≢ s → book_at self.new.board j ≡ book_at self.old.board j }
        ensures in_step { IsInStep self.new.board self.new.seat }
        ensures table { self.new.seat.table ≡ self.old.seat.table }
        ensures sessions { length self.new.board.sessions ≡ length self.old.board.sessions }
        ensures goes_on { (j : ℕ) → GoesOn self.old.board self.new.board j }
        ensures none_comes { length self.new.board.connections ≡ length self.old.board.connections }
    {
        boards_stay_sound();
        lines_tell_the_owner();
        let (owner, _) = self.board.session(s as usize).owner();
        if owner != library {
            return Ok(());
        }
        self.take_back(alloc, leases, s, at, until)
    }

    // Makes room for what a gathering of the session records.
    fn make_room(&mut self, alloc: Global, s: u16) -> Result<(), NoMemory>
        requires session { s < length self.old.board.sessions }
        requires place { IfSome (place_at self.old.board s) (λ k. k < length self.old.board.connections) }
        ensures rests { Rests s self.old self.new }
        ensures nothing { NothingIsTold self.old.board self.new.board }
        ensures empty { OnOk result (self.new.bodies.items ≡ []) }
        ensures bodies { OnOk result (LANE_SLOTS ≤ deque_capacity self.new.bodies) }
        ensures room { OnOk result (HasRoom s self.new.board) }
    {
        stops_are_told();
        self.board.reserve(alloc, s as usize, GATHERED)?;
        self.bodies.clear();
        self.bodies.reserve(LANE_SLOTS)?;
        Ok(())
    }
}

/// Takes the items that the last look or revoke of a session showed and that weren't taken yet, and
/// puts their bodies in order into an empty list, which has room for them.
fn take_all(leases: &Leases, seat: &mut EngineSeat, s: u16, bodies: &mut VecDeque<Bytes>)
    requires table { seat.old.table ≡ leases.now }
    requires session { s < leases.now.shape.sessions }
    requires empty { bodies.old.items ≡ [] }
    requires room { pending (engine_at seat.old s) ≤ deque_capacity bodies.old }
    ensures takes { TakesItems s seat.old seat.new bodies.new.items }
    ensures fit { All IsFit bodies.new.items }
    ensures count { length bodies.new.items ≡ pending (engine_at seat.old s) }
    ensures none_left { pending (engine_at seat.new s) ≡ 0 }
    ensures settled { Each (IsSettled s (engine_at seat.old s)) seat.old.settled → Each (IsSettled s (engine_at seat.new s)) seat.new.settled }
    ensures others_taken { OthersTaken leases.now.shape.libraries (engine_at seat.old s) → OthersTaken leases.now.shape.libraries (engine_at seat.new s) }
    ensures table { seat.new.table ≡ seat.old.table }
{
    fit_bodies_are_bodies();
    while let Some(item) = leases.take(seat, s) {
        bodies.push_back_reserved(item.body);
    }
}
