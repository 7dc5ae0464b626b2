//! What holds over any list of calls of one library, each law as the clause of a function that
//! does nothing.
ghost use Rattle.library_api.specs.Laws.{DeedsAreAnswered, PostsAreSent, RequestsAreNumbered, PollsCloseRequests, PollsPop, RepliesCloseRequests, RepliesAreOfTheOpen, ReadingsFollowEvents, ReadsHaveNoGap, BeginningsAreInOrder};

/// What a library's seat knows that it sent and gave back is, session by session and in order,
/// what its calls answered: by which lease, the number of the send, the count and the heir.
pub fn deeds_are_answered()
    ensures { DeedsAreAnswered }
{}

/// What a library's seat knows of the items that it sent is, session by session and in order, what
/// its calls answered: by which lease, and the body that was handed in.
pub fn posts_are_sent()
    ensures { PostsAreSent }
{}

/// A library's requests are numbered 1, 2 and so on, and the one that is unanswered is the last. A
/// grant and a refusal close it, and a message doesn't.
pub fn requests_are_numbered()
    ensures numbers { RequestsAreNumbered }
    ensures closed { PollsCloseRequests }
{}

/// Where the replies that a library popped have the numbers 1, 2 and so on of its requests, a reply
/// is that of the open request, which it closes. What was popped is what the polls popped.
pub fn replies_close_requests()
    ensures popped { PollsPop }
    ensures closed { RepliesCloseRequests }
    ensures number { RepliesAreOfTheOpen }
{}

/// What a library reads next of a session below 64 follows from the events of its polls: from the
/// position of a grant on, and one further with each message, until the lease is lost.
pub fn readings_follow_events()
    ensures { ReadingsFollowEvents }
{}

/// The messages of a lease, of a session below 64, that a library's polls hand on have the
/// positions from the next one on (its grant's, where that is still to come), in order and without
/// a gap, where the lease's grant and messages are in order among the notices, and the library's
/// record of the session agrees with its seat to begin with.
pub fn reads_have_no_gap()
    ensures reads { ReadsHaveNoGap }
    ensures beginnings { BeginningsAreInOrder }
{}
