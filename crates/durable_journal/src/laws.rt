//! Laws of the journal's file: for which records it stands, what a sync keeps of them, and which texts are
//! bodies. Each is the contract of a function that does nothing.

ghost use Rattle.std.specs.Prelude.{◌≡◌, ◌<◌, ◌≤◌, ◌^◌, ◌++◌, ℕ, List, length};
ghost use Rattle.std.specs.List.{AllByRecursion};
ghost use Rattle.session_core.specs.Admin.{admin_text};
ghost use Rattle.session_core.specs.declared.acts.Admin.{Admin};
ghost use Rattle.session_core.specs.declared.admin_text.TheConstants.{LONGEST_ADMIN};
ghost use Rattle.lease_core.specs.declared.record.Record.{Record};
ghost use Rattle.durable_journal.specs.Answers.{AnswersArePlain};
ghost use Rattle.durable_journal.specs.Disk.{History, IsSynced, after_step, Sync};
ghost use Rattle.durable_journal.specs.Files.{Stands, IsDamaged, IsLawful, AreRuns};
ghost use Rattle.durable_journal.specs.Records.{IsAdminBody, IsPlainAdmin};
ghost use Rattle.durable_journal.specs.RecordText.{record_text};

use fix_fields::laws::{reads_as_spelled, texts_are_plain};

/// A file stands for at most one list of records, and none that stands for one is damaged.
pub fn files_stand_once()
    ensures once { (sessions leases : ℕ) (file : List ℕ) (a b : List Record) → Stands sessions leases file a → Stands sessions leases file b → a ≡ b }
    ensures undamaged { (sessions leases : ℕ) (file : List ℕ) (records : List Record) (place : ℕ) → Stands sessions leases file records → IsDamaged sessions leases file place → ⊥ }
{}

/// The records for which a file stands are of the table, with their numbers in their types, and each
/// session's entries are a run.
pub fn files_hold_records()
    ensures lawful { (sessions leases : ℕ) (file : List ℕ) (records : List Record) → Stands sessions leases file records → AllByRecursion IsLawful records }
    ensures runs { (sessions leases : ℕ) (file : List ℕ) (records : List Record) → Stands sessions leases file records → AreRuns sessions leases records }
{}

/// What stands at the beginning of runs are runs.
pub fn beginnings_are_runs()
    ensures { (sessions leases : ℕ) (records more : List Record) → AreRuns sessions leases (records ++ more) → AreRuns sessions leases records }
{}

/// The text of each session message whose numbers are in their types, and whose texts aren't empty and
/// have no SOH, that of a Heartbeat or a Logout with at most `LONGEST_TEXT` bytes, is the body of an
/// Admin's record under its number.
pub fn session_texts_are_bodies()
    ensures { (admin : Admin) (number : ℕ) → IsPlainAdmin admin → IsAdminBody number (admin_text admin number) }
{}

/// And under a number of 64 bits it has at most `LONGEST_ADMIN` bytes.
#[tactic(auto, using(crate::proofs::Short::text_is_short))]
pub fn session_texts_are_short()
    ensures { (admin : Admin) (number : ℕ) → IsPlainAdmin admin → number < 2 ^ 64 → length (admin_text admin number) ≤ LONGEST_ADMIN }
{}

/// These answers to a message have such numbers and texts: a Reject of one whose fields can be read, with
/// a type (35) among them and a number of 32 bits, for a tag of 32 bits and a reason of 8; the answer to
/// such a message as a TestRequest; the Logout of a low number, where it and the expected one are of 64
/// bits; and that of a missing one.
pub fn answers_are_plain()
    ensures { AnswersArePlain }
{
    reads_as_spelled();
    texts_are_plain();
}

/// A record is read in one way, whatever stands behind it.
#[tactic(auto, using(crate::proofs::Once::record_once))]
pub fn records_are_read_once()
    ensures { (a b : Record) (x y : List ℕ) → IsLawful a → IsLawful b → record_text a ++ x ≡ record_text b ++ y → a ≡ b }
{}

/// Behind a sync a crash leaves what is read.
pub fn syncs_keep_all()
    ensures { (told : History) → IsSynced (after_step Sync told) }
{}
