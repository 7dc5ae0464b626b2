//! What is handed out of a session and read back is that session.

ghost use Rattle.session_book.specs.Rereading.{ReadBackStays, RecordsAreReadBack};

use lease_core::laws::entries_decide_one_by_one;

/// The records of the entries that are new, read back behind those that were handed out before, give
/// the session's journal and logs.
pub fn records_are_read_back()
    ensures read { RecordsAreReadBack }
    // What there was to be read back of a session, there still is as it goes on.
    ensures stays { ReadBackStays }
{
    entries_decide_one_by_one();
}
