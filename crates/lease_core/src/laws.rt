//! What holds of every list of entries and of every word, each law as the clause of a function
//! that does nothing.
ghost use Rattle.lease_core.specs.Laws.{HoldingsAdjoin, OneOwner, LinesAreRaised, LinesAreHeld, LinesAreTakenBack, RaisedLinesKeepLeases, LinesGoOn, LinesGoOnOver, LinesTellOwner, LinesTellLease, WordsAreShown, WordsAreShowable, WordsCanTimeOut, WordsAreRead, WordsAreWritten, PushedIsLast, PushedIsChanged, DeedsAreTold, LibraryDeedsAreTold, EntriesDecide, EntriesDecideOver, GrantsFindNobody, LeasesHaveLibraries, RunsGoOn, RunsGoOnOver};

/// Whatever happened to a session, the spans of its ownership are adjoining: they cut its inbound
/// log into intervals, the engine's and a library's in turns.
pub fn holdings_adjoin()
    ensures { HoldingsAdjoin }
{}

/// Whatever happened to a session, each of its leases but the last has ended, and they are no more
/// than can be given.
pub fn one_owner_at_a_time()
    ensures { OneOwner }
{}

/// What a lease word adds to the lines of a session's leases is what it adds to the journal.
pub fn words_raise_lines()
    ensures shown { LinesAreRaised }
    ensures held { LinesAreHeld }
    ensures timed_out { LinesAreTakenBack }
    // It gives the session to nobody.
    ensures kept { RaisedLinesKeepLeases }
{}

/// What an entry adds to a journal's lines follows from them and from that entry.
pub fn lines_go_on()
    ensures one { LinesGoOn }
    ensures list { LinesGoOnOver }
{}

/// Who has the session, and by which lease, can be read off the lines.
pub fn lines_tell_the_owner()
    ensures owner { LinesTellOwner }
    ensures lease { LinesTellLease }
{}

/// The last lease is a library's. A request is granted only where no library has the session, a
/// lease is left to give and the replay doesn't begin past the inbound log. It gets the next lease.
pub fn grants_find_nobody()
    ensures libraries { LeasesHaveLibraries }
    ensures grants { GrantsFindNobody }
{}

/// The word of a journal's lines is shown by them. A word with an owner of at most
/// `MOST_LIBRARIES`, for which the lines stand once they are raised by it, meets `showable` of
/// `Registry::show` and, where a library has the session, `can_time_out` of `Registry::timeout`.
pub fn words_fit_their_lines()
    ensures shown { WordsAreShown }
    ensures showable { WordsAreShowable }
    ensures can_time_out { WordsCanTimeOut }
{}

/// The number of a word whose owner is below 64 and whose count is below 2^32 stands for that word
/// and no other, and a number without both flags is that of the word for which it stands.
pub fn words_are_numbers()
    ensures read { WordsAreRead }
    ensures written { WordsAreWritten }
{}

/// The line that is put behind others is their last one.
pub fn last_lines_are_last()
    ensures last { PushedIsLast }
    ensures changed { PushedIsChanged }
{}

/// What was done by the leases of a session, by all and by each library's, is what the lines tell:
/// for each lease its sends from the first to its count, and then its end.
pub fn lines_tell_deeds()
    ensures all { DeedsAreTold }
    ensures library { LibraryDeedsAreTold }
{}

/// What a journal comes to, and whether it is lawful, follows from the entries before the last
/// ones and from those.
pub fn entries_decide_one_by_one()
    ensures state { EntriesDecide }
    ensures states { EntriesDecideOver }
    ensures run { RunsGoOn }
    ensures runs { RunsGoOnOver }
{}
