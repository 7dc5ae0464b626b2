//! Laws of the headline: it holds of every record that a run leaves, and refutes wrong ones. Each is the
//! contract of a function that does nothing.

ghost use Rattle.std.specs.Prelude.{◌≡◌, ℕ, Bool, List, Option, None};
ghost use Rattle.std.specs.List.{All};
ghost use Rattle.engine_config.specs.Config.{IsConfig};
ghost use Rattle.engine_config.specs.declared.config.Config.{Config};
ghost use Rattle.engine_end.specs.Finishing.{GathersAll};
ghost use Rattle.engine_end.specs.Records.{HasLawfulJournal};
ghost use Rattle.engine_loop.specs.declared.engine.Engine.{Engine};
ghost use Rattle.gate_io.specs.MemWire.{link_at};
ghost use Rattle.gate_io.specs.Wire.{Door, Link};
ghost use Rattle.headline.specs.Ends.{AllEndedWhole};
ghost use Rattle.headline.specs.Finished.{IsFinished};
ghost use Rattle.headline.specs.Headline.{Headline};
ghost use Rattle.headline.specs.InPart.{HeadlineInPart};
ghost use Rattle.headline.specs.LogonsFirst.{LogonsComeFirst};
ghost use Rattle.headline.specs.Needed.{AccountLaws, HeadlineLaws};
ghost use Rattle.headline.specs.Numbering.{AreInOrder, IsInOrder};
ghost use Rattle.headline.specs.Wrong.{AnswersUnbound, BeatsBeforeItsLogon, BindsNone, BindsOneTwice, BindsTwoAtOnce, CountsWhatNeverCame, GivesBackByItself, GivesBackWhatRuns, HasTwoOwners, IsRefuted, IsRepliedToTwice, LogsNoArrival, LogsNoNumber, LosesByNoWord, ReadsElsewhere, SendsByAnotherLease, ReadsPastEnd, SendsBeforeItsLogon, SendsForAnother, ShareOneConnection, SkipsNumbers, StandsWhereItWasLeft, StraysAtHome, TakesBackFromNobody, TakesMoreThanItsLogon, WritesWhatIsNotTold};
ghost use Rattle.headline.specs.WrongInPart.{BindsNoConnection, HasOtherNames, IsRefutedInPart, MissesSession, StopsTwice, TellsWhatNeverCame};
ghost use Rattle.lease_core.specs.declared.entry.Entry.{Entry};
ghost use Rattle.lease_desk.specs.declared.desk.LeaseDesk.{LeaseDesk};
ghost use Rattle.library_desk.specs.declared.shared.Shared.{Shared};
ghost use Rattle.headline.specs.runs.Accounted.{IsAccountedRun};
ghost use Rattle.run_report.specs.declared.records.RunRecord.{RunRecord};
ghost use Rattle.engine_loop.specs.Starts.{StartsEngineOf};
ghost use Rattle.script_run.specs.Means.{Means, StartsRun};
ghost use Rattle.script_run.specs.Runs.{Carries, CarriesOut};
ghost use Rattle.script_run.specs.Stops.{MeansInPart};
ghost use Rattle.script_run.specs.declared.run.Run.{Run};
ghost use Rattle.script_text.specs.declared.steps.Script.{Script};
ghost use Rattle.script_text.specs.declared.steps.Step.{Step};
ghost use Rattle.headline.specs.serving.Served.{AnyReadings};
ghost use Rattle.serve_run.specs.Drives.{Drive, DrivesFor};
ghost use Rattle.serve_run.specs.Serves.{Serves};
ghost use Rattle.serve_run.specs.Stops.{ServesInPart};
ghost use Rattle.session_core.specs.State.{State};

use crate::runs::{
    engines_are_accounted_for, kept_calls_tell, libraries_live, runs_are_accounted_for, runs_go_on,
    scripts_are_accounted_for,
};
use crate::serving::{drives_are_accounted_for, served_scripts_are_accounted_for};
use engine_laws::laws::{
    accounts_are_whole, happenings_are_accounted_for, sessions_are_accounted_for,
    steps_are_accounted_for, stops_are_accounted_for,
};
use engine_laws::texts::texts_are_taken;
use engine_laws::walks::turns_are_walks;
use lease_core::laws::{
    entries_decide_one_by_one, holdings_adjoin, lines_tell_deeds, one_owner_at_a_time,
};
use library_api::replies_close_requests;
use library_desk::laws::serving_happens;
use message_log::entries_stay;
use session_book::laws::acts_are_told;
use switchboard::laws::boards_go_on;

/// The connections of a run are numbered in the order in which they come, the accepted ones from 0 on and the
/// dialled ones from the first dialled number on: as it begins, behind each step of its script, and as each
/// session is gathered at its end.
pub fn connections_are_numbered()
    ensures first { (config : Config) (moment : ℕ) (shared : Shared) (run : Run) → StartsRun config moment shared run → IsInOrder run }
    ensures carries { (step : Step) (old new : Run) → Carries step old new → IsInOrder old → IsInOrder new }
    ensures carries_out { (steps : List Step) (count : ℕ) (old new : Run) → CarriesOut steps count old new → IsInOrder old → IsInOrder new }
    ensures gathers { (at until : ℕ) (old new : LeaseDesk) → GathersAll at until old new → (accepted dialled : ℕ) → AreInOrder accepted dialled old.board.connections
        → AreInOrder accepted dialled new.board.connections }
{
    turns_are_walks();
    serving_happens();
}

/// Over each happening, each of a session's doings and each step of a turn a board stays accounted for, and a turn is made of
/// those: what laws of this module and of `clock` need of the crates below.
pub(crate) fn accounts_are_kept()
    ensures { AccountLaws }
{
    turns_are_walks();
    happenings_are_accounted_for();
    sessions_are_accounted_for();
    steps_are_accounted_for();
    serving_happens();
}

/// Of a connection that ended from outside, by the wire, by the clock or since it took too little, each whole piece
/// of what came on it was handed out before: as a run begins, behind each step of its script, and as each
/// session is gathered at its end.
pub fn connections_end_whole()
    ensures first { (config : Config) (moment : ℕ) (shared : Shared) (run : Run) → StartsRun config moment shared run → AllEndedWhole run.engine.sessions.desk.board }
    ensures carries { (before : ℕ → List Entry) (start : ℕ → State) (step : Step) (old new : Run) → Carries step old new → IsAccountedRun before start old
        → AllEndedWhole old.engine.sessions.desk.board → AllEndedWhole new.engine.sessions.desk.board }
    ensures carries_out { (before : ℕ → List Entry) (start : ℕ → State) (steps : List Step) (count : ℕ) (old new : Run) → CarriesOut steps count old new → IsAccountedRun before start old
        → AllEndedWhole old.engine.sessions.desk.board → AllEndedWhole new.engine.sessions.desk.board }
    ensures gathers { (at until : ℕ) (old new : LeaseDesk) → GathersAll at until old new → AllEndedWhole old.board → AllEndedWhole new.board }
{
    accounts_are_kept();
    runs_are_accounted_for();
}

/// In the journal of a session that dials the Bind of each connection is directly followed by the Logon by which the
/// session asked: as an engine begins, over the steps of a script and the turns of a run that is served, and as each
/// session is gathered at its end.
pub fn logons_come_first()
    ensures first { (config : Config) (moment : ℕ) (shared : Shared) (engine : Engine) → StartsEngineOf config moment shared engine → LogonsComeFirst engine.sessions.desk.board }
    ensures carries_out { (steps : List Step) (count : ℕ) (old new : Run) → CarriesOut steps count old new → LogonsComeFirst old.engine.sessions.desk.board → LogonsComeFirst new.engine.sessions.desk.board }
    ensures drives { (connections libraries count : ℕ) (old new : Drive) → DrivesFor connections libraries count old new
        → LogonsComeFirst old.at.engine.sessions.desk.board → LogonsComeFirst new.at.engine.sessions.desk.board }
    ensures gathers { (at until : ℕ) (old new : LeaseDesk) → GathersAll at until old new → LogonsComeFirst old.board → LogonsComeFirst new.board }
{
    turns_are_walks();
    entries_stay();
    entries_decide_one_by_one();
    acts_are_told();
    boards_go_on();
    serving_happens();
}

/// An account tells whole of each connection, lawful journals of their owners and holdings, and what is kept of calls of what
/// libraries did: what the headline needs of other laws, of whichever record.
fn accounts_and_calls_are_told()
    ensures { HeadlineLaws }
{
    accounts_are_whole();
    holdings_adjoin();
    one_owner_at_a_time();
    lines_tell_deeds();
    replies_close_requests();
    kept_calls_tell();
}

/// The headline holds of each record that serving a script leaves, however the threads came between one another, where its journals are those
/// of registries and no connection was accepted or dialled over the wire before; and the wire tells of the connections what it does then.
pub fn served_headlines_hold()
    ensures headline { (script : Script) (turns : ℕ) (wide : Bool) (old new : Door) (old_links new_links : ℕ → Link) (left : RunRecord) (spent : Option ℕ)
        → Serves script turns wide AnyReadings old new old_links new_links left spent → IsConfig script.config → old.accepted ≡ 0 → old.dialled ≡ 0 → All HasLawfulJournal left.engine.sessions
        → Headline script.config new_links left }
    // Where nobody's turns were spent nothing is left to wait for.
    ensures finished { (script : Script) (turns : ℕ) (wide : Bool) (old new : Door) (old_links new_links : ℕ → Link) (left : RunRecord)
        → Serves script turns wide AnyReadings old new old_links new_links left None → old.accepted ≡ 0 → old.dialled ≡ 0 → IsFinished script.config.connections script.config.dials left }
{
    accounts_are_kept();
    logons_come_first();
    accounts_and_calls_are_told();
    engines_are_accounted_for();
    texts_are_taken();
    drives_are_accounted_for();
    served_scripts_are_accounted_for();
}

/// The headline holds of each record that a script means, where its journals are those of registries, and the wire
/// tells of the connections what that of its last run does.
pub fn headlines_hold()
    ensures { (script : Script) (left : RunRecord) (means : Means script left) → IsConfig script.config → All HasLawfulJournal left.engine.sessions
        → Headline script.config (link_at means.leads.last.wire) left }
{
    connections_are_numbered();
    connections_end_whole();
    logons_come_first();
    accounts_and_calls_are_told();
    libraries_live();
    runs_are_accounted_for();
    runs_go_on();
    scripts_are_accounted_for();
    boards_go_on();
}

/// The headline pins records down without the meaning of a script: each of these families of wrong records is refuted.
pub fn wrong_records_are_refuted()
    ensures no_arrival { IsRefuted LogsNoArrival }
    ensures no_number { IsRefuted LogsNoNumber }
    ensures two_owners { IsRefuted HasTwoOwners }
    ensures back_from_nobody { IsRefuted TakesBackFromNobody }
    ensures answers_unbound { IsRefuted AnswersUnbound }
    ensures two_at_once { IsRefuted BindsTwoAtOnce }
    ensures one_twice { IsRefuted BindsOneTwice }
    ensures one_shared { IsRefuted ShareOneConnection }
    ensures not_there { IsRefuted BindsNone }
    ensures not_told { IsRefuted WritesWhatIsNotTold }
    ensures more_than_logon { IsRefuted TakesMoreThanItsLogon }
    ensures send_first { IsRefuted SendsBeforeItsLogon }
    ensures beat_first { IsRefuted BeatsBeforeItsLogon }
    ensures left_standing { IsRefuted StandsWhereItWasLeft }
    ensures never_came { IsRefuted CountsWhatNeverCame }
    ensures twice { IsRefuted IsRepliedToTwice }
    ensures skipped { IsRefuted SkipsNumbers }
    ensures for_another { IsRefuted SendsForAnother }
    ensures elsewhere { IsRefuted ReadsElsewhere }
    ensures past_end { IsRefuted ReadsPastEnd }
    ensures runs_on { IsRefuted GivesBackWhatRuns }
    ensures other_lease { IsRefuted SendsByAnotherLease }
    ensures by_itself { IsRefuted GivesBackByItself }
    ensures not_shown { IsRefuted LosesByNoWord }
    ensures at_home { IsRefuted StraysAtHome }
{}

/// What holds of the record of a run that had begun and for which memory was wanting later: of a script that is carried out,
/// and of one that is served, over a wire at which nothing had come before.
pub fn headlines_hold_in_part()
    ensures means { (script : Script) (left : RunRecord) → MeansInPart script left → IsConfig script.config → HeadlineInPart script.config left }
    ensures serves { (script : Script) (turns : ℕ) (wide : Bool) (old : Door) (old_links : ℕ → Link) (left : RunRecord) → ServesInPart script turns wide old old_links left → IsConfig script.config
        → old.accepted ≡ 0 → old.dialled ≡ 0 → HeadlineInPart script.config left }
{
    turns_are_walks();
    boards_go_on();
    serving_happens();
    happenings_are_accounted_for();
    sessions_are_accounted_for();
    texts_are_taken();
    engines_are_accounted_for();
    runs_go_on();
    runs_are_accounted_for();
    drives_are_accounted_for();
    stops_are_accounted_for();
}

/// The headline in part pins down the records that are left where memory was wanting: each of these families of wrong ones
/// is refuted.
pub fn wrong_records_are_refuted_in_part()
    ensures missing { IsRefutedInPart MissesSession }
    ensures other_names { IsRefutedInPart HasOtherNames }
    ensures no_connection { IsRefutedInPart (λ config left. BindsNoConnection left) }
    ensures never_came { IsRefutedInPart (λ config left. TellsWhatNeverCame left) }
    ensures twice { IsRefutedInPart StopsTwice }
{}
