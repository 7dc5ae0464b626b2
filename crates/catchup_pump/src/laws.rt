//! What holds of the messages that pumps push, each law as the clause of a function that does
//! nothing.
ghost use Rattle.catchup_pump.specs.Laws.{PumpsJoin, LogsGrow, PushedAreTheLog, PushedAreCounted};

/// Two pumps, the second from where the first stopped, push what one would.
pub fn pumps_join()
    ensures { PumpsJoin }
{}

/// What was pushed of a log stays what is pushed of it as it grows.
pub fn logs_grow()
    ensures { LogsGrow }
{}

/// The messages that are pushed from a position on are the log's: as many as the cursor moved,
/// and the one at each place is that of the position so far on.
pub fn pushed_messages_are_the_log()
    ensures count { PushedAreCounted }
    ensures each { PushedAreTheLog }
{}
