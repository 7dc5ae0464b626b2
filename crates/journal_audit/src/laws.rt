//! What a report with the verdict Yes shows. The functions do nothing.

ghost use Rattle.journal_audit.specs.Journals.{JournalsAreLawful};
ghost use Rattle.journal_audit.specs.Shown.{BodiesAreOwn, DeedsAreOwn, OfEachRight, ReadsArePrefixes};
ghost use Rattle.journal_audit.specs.Wrong.{CountsAnother, GivesBackAnother, GivesBackUntold, GivesBackWhatRuns, HandsToAnother, IsRefuted, ReadsAnother, ReadsForAnother, ReadsOfNone, ReadsTooLate, ReadsTwice, ReadsUngranted, SendsAnother, SendsForAnother, SendsOneMore, SendsOutOfOrder, SendsUntold, SkipsAMessage};

use lease_core::laws::{entries_decide_one_by_one, holdings_adjoin};

/// The entries of each session of a report with the verdict Yes are a run of the registry, and its
/// holdings are those of the entries: they cut the inbound messages into adjoining spans.
pub fn journals_are_lawful()
    ensures { JournalsAreLawful }
{
    entries_decide_one_by_one();
    holdings_adjoin();
}

/// In a report with the verdict Yes, what was read by a lease of a session is a beginning of what the
/// inbound log has from the position on that the lease's grant names. It was read in order, each
/// message once, by the library that has the lease, and none at or beyond the end of its holding.
pub fn reads_are_prefixes()
    ensures { OfEachRight ReadsArePrefixes }
{
    journals_are_lawful();
}

/// In a report with the verdict Yes, what the calls of a library say that it sent and gave back of a
/// session is what the session's journal has of its sends and releases, each once and in one order, with
/// lease and ordinal, or lease, count and heir; and what was sent is what the outbound log has for them.
pub fn deeds_are_the_libraries_own()
    ensures deeds { OfEachRight DeedsAreOwn }
    ensures bodies { OfEachRight BodiesAreOwn }
{
    journals_are_lawful();
}

/// These laws pin reports down without the rules of their lines: each of these families of wrong reports
/// is refuted.
pub fn wrong_reports_are_refuted()
    ensures skips { IsRefuted SkipsAMessage }
    ensures reads_twice { IsRefuted ReadsTwice }
    ensures reads_another { IsRefuted ReadsAnother }
    ensures reads_for_another { IsRefuted ReadsForAnother }
    ensures reads_ungranted { IsRefuted ReadsUngranted }
    ensures reads_too_late { IsRefuted ReadsTooLate }
    ensures reads_of_none { IsRefuted ReadsOfNone }
    ensures sends_untold { IsRefuted SendsUntold }
    ensures sends_out_of_order { IsRefuted SendsOutOfOrder }
    ensures sends_one_more { IsRefuted SendsOneMore }
    ensures sends_another { IsRefuted SendsAnother }
    ensures sends_for_another { IsRefuted SendsForAnother }
    ensures gives_back_what_runs { IsRefuted GivesBackWhatRuns }
    ensures gives_back_untold { IsRefuted GivesBackUntold }
    ensures hands_to_another { IsRefuted HandsToAnother }
    ensures counts_another { IsRefuted CountsAnother }
    ensures gives_back_another { IsRefuted GivesBackAnother }
{
    journals_are_lawful();
    reads_are_prefixes();
    deeds_are_the_libraries_own();
}
