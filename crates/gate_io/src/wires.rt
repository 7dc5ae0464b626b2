//! The wire: the connections of a run, each named by its number, and what a call on one can come to.

ghost use Rattle.std.specs.Prelude.{◌≡◌, ◌<◌, ◌≤◌, ℕ, List, Option, length, true};
ghost use Rattle.gate_io.specs.Wire.{Link, Door, LinkGoesOn, DoorGoesOn, OthersStay, IsOpen, WireGotWithin, WireGivesFrom, ReadHasCause, ReadsAsPlanned, WireWroteWithin, WireTakesFrom, WriteHasCause, WritesAsPlanned, Accepts, AcceptsAsPlanned, Listens};

/// The most connections that one run accepts. They have the numbers from 0 on.
pub const MOST_CONNECTIONS: u32 = 1024;

/// The number of the first connection that is dialled. Later ones have the numbers behind it.
pub const FIRST_DIALLED: u32 = MOST_CONNECTIONS;

/// The most connections that one run dials.
pub const MOST_DIALLED: u32 = 1024;

/// What a read of a connection gives.
#[derive(Clone, Copy, Debug, PartialEq, Eq)]
pub enum WireGot {
    /// This many bytes, which stand at the buffer's front.
    Bytes(usize),
    /// The counterparty's input is read to its end.
    End,
    /// Nothing can be read now.
    Blocked,
    /// The read failed, and took nothing.
    Failed,
}

/// What a write to a connection takes.
#[derive(Clone, Copy, Debug, PartialEq, Eq)]
pub enum WireWrote {
    /// This many bytes, the first of the piece.
    Bytes(usize),
    /// Nothing can be written now.
    Blocked,
    /// The write failed, and took nothing.
    Failed,
}

/// What came of asking for a new connection.
#[derive(Clone, Copy, Debug, PartialEq, Eq)]
pub enum Accepted {
    /// A connection, under the number of those that were accepted before it.
    New(u32),
    /// No connection waits.
    Nothing,
    /// The accept failed.
    Failed,
}

/// What came of beginning to listen.
#[derive(Clone, Copy, Debug, PartialEq, Eq)]
pub enum Listened {
    Ready,
    OutOfMemory,
    Failed,
}

/// The connections to counterparties. A connection is named by a number: accepted ones from 0 on,
/// and those that a wire with `Dial` dialled from `FIRST_DIALLED` on, each in the order in which
/// they came.
pub trait Wire {
    ghost use Rattle.gate_io.specs.declared.wires.WireGot.{WireGot};
    ghost use Rattle.gate_io.specs.declared.wires.WireWrote.{WireWrote};
    ghost use Rattle.gate_io.specs.declared.wires.Accepted.{Accepted};
    ghost use Rattle.gate_io.specs.declared.wires.Listened.{Listened};

    /// What the wire tells of a connection.
    ghost link: { Self → ℕ → Link };

    /// What the wire tells beside its connections.
    ghost door: { Self → Door };

    /// What a read gives, for a wire that fixes it: the wire before, the connection, the buffer's
    /// length, the answer, the wire after.
    ghost read_gives: { Self → ℕ → ℕ → WireGot → Self → Type 0 } = { λ _ _ _ _ _. Unit {0} };

    /// What a write takes, for a wire that fixes it: the wire before, the connection, the piece, the
    /// answer, the wire after.
    ghost write_gives: { Self → ℕ → List ℕ → WireWrote → Self → Type 0 } = { λ _ _ _ _ _. Unit {0} };

    /// What an accept gives, for a wire that fixes it: the wire before, the answer, the wire after.
    ghost accept_gives: { Self → Accepted → Self → Type 0 } = { λ _ _ _. Unit {0} };

    /// What a listen gives, for a wire that fixes it: the wire before, the address, the answer, the
    /// wire after.
    ghost listen_gives: { Self → List ℕ → Listened → Self → Type 0 } = { λ _ _ _ _. Unit {0} };

    /// What a close leaves, for a wire that fixes it: the wire before, the connection, the wire
    /// after.
    ghost close_gives: { Self → ℕ → Self → Type 0 } = { λ _ _ _. Unit {0} };

    /// What a pause leaves, for a wire that fixes it: the wire before, the milliseconds, the wire
    /// after.
    ghost pause_gives: { Self → ℕ → Self → Type 0 } = { λ _ _ _. Unit {0} };

    /// Begins to listen at an address, an IP address or host name with a port.
    fn listen(&mut self, address: &str) -> Listened
        ensures listens { Listens (door self.old) (door self.new) result }
        ensures exact { listen_gives self.old address.now result self.new }
        ensures door_goes_on { DoorGoesOn (door self.old) (door self.new) }
        ensures links_stay { (c : ℕ) → link self.new c ≡ link self.old c };

    /// Takes the next connection that waits, where fewer than `MOST_CONNECTIONS` were accepted.
    /// `New` has it open, with nothing written to it, and counts it as accepted. `Nothing` and
    /// `Failed` accept none, and each comes only where its own count rose, or stands at the end of
    /// its type. No other count of the wire changes, and no connection that was there.
    fn accept(&mut self) -> Accepted
        requires { (door self.old).accepted < MOST_CONNECTIONS }
        ensures accepts { Accepts (door self.old) (door self.new) (link self.new) result }
        ensures exact { accept_gives self.old result self.new }
        ensures planned { AcceptsAsPlanned (door self.old) (door self.new) (link self.old) (link self.new) result }
        ensures door_goes_on { DoorGoesOn (door self.old) (door self.new) }
        ensures goes_on { LinkGoesOn (link self.old (door self.old).accepted) (link self.new (door self.old).accepted) }
        ensures others_stay { OthersStay (link self.old) (link self.new) (door self.old).accepted };

    /// Reads what came on an open connection, into a buffer that isn't empty. `Bytes` has put so
    /// many bytes, at least one, at the buffer's front. `End`, `Blocked` and `Failed` give none,
    /// and each comes only where its own count of the connection rose, or stands at the end of its
    /// type. Where the wire tells which bytes are left, those given are the first of them, the
    /// others are left, and `End` comes only with none left. The connection stays open, what was
    /// written to it stays, and so do the wire's own counts and the other connections. No clause
    /// says what else stands in the buffer then.
    fn read(&mut self, c: u32, buf: &mut [u8]) -> WireGot
        requires open_still { IsOpen (door self.old) (link self.old) c }
        requires room { 0 < length buf.old }
        ensures within { WireGotWithin (length buf.old) result }
        ensures content { WireGivesFrom (link self.old c).left result buf.new (link self.new c).left }
        ensures exact { read_gives self.old c (length buf.old) result self.new }
        ensures planned { ReadsAsPlanned (link self.old c) (length buf.old) result (link self.new c) }
        ensures cause { ReadHasCause (link self.old c) (link self.new c) result }
        ensures written_stays { (link self.new c).written ≡ (link self.old c).written }
        ensures stays_open { IsOpen (door self.new) (link self.new) c }
        ensures goes_on { LinkGoesOn (link self.old c) (link self.new c) }
        ensures door_stays { door self.new ≡ door self.old }
        ensures others_stay { OthersStay (link self.old) (link self.new) c };

    /// Writes the first bytes of a piece that isn't empty to an open connection. `Bytes` took so
    /// many of them, at least one. `Blocked` and `Failed` took none, and each comes only where its
    /// own count of the connection rose, or stands at the end of its type. Where the wire tells
    /// what was written, the bytes that were taken stand behind that. The connection stays open,
    /// what is left to read of it stays, and so do the wire's own counts and the other connections.
    fn write(&mut self, c: u32, piece: &[u8]) -> WireWrote
        requires open_still { IsOpen (door self.old) (link self.old) c }
        requires bytes { 0 < length piece.now }
        ensures within { WireWroteWithin (length piece.now) result }
        ensures content { WireTakesFrom (link self.old c).written result piece.now (link self.new c).written }
        ensures exact { write_gives self.old c piece.now result self.new }
        ensures planned { WritesAsPlanned (link self.old c) (length piece.now) result (link self.new c) }
        ensures cause { WriteHasCause (link self.old c) (link self.new c) result }
        ensures left_stays { (link self.new c).left ≡ (link self.old c).left }
        ensures stays_open { IsOpen (door self.new) (link self.new) c }
        ensures goes_on { LinkGoesOn (link self.old c) (link self.new c) }
        ensures door_stays { door self.new ≡ door self.old }
        ensures others_stay { OthersStay (link self.old) (link self.new) c };

    /// Closes a connection. It is neither read nor written from then on.
    fn close(&mut self, c: u32)
        requires { IsOpen (door self.old) (link self.old) c }
        ensures closed { (link self.new c).closed ≡ true }
        ensures exact { close_gives self.old c self.new }
        ensures left_stays { (link self.new c).left ≡ (link self.old c).left }
        ensures written_stays { (link self.new c).written ≡ (link self.old c).written }
        ensures plan_stays { (link self.new c).plan ≡ (link self.old c).plan }
        ensures goes_on { LinkGoesOn (link self.old c) (link self.new c) }
        ensures door_stays { door self.new ≡ door self.old }
        ensures others_stay { OthersStay (link self.old) (link self.new) c };

    /// Waits for something to do, for at most this many milliseconds where the wire waits at all.
    /// What the wire tells stays. No clause says how long it waits.
    fn pause(&mut self, ms: u32)
        ensures exact { pause_gives self.old ms self.new }
        ensures door_stays { door self.new ≡ door self.old }
        ensures links_stay { (c : ℕ) → link self.new c ≡ link self.old c };
}
