//! Laws of scripts that are carried out. Each is the contract of a function that does nothing.

ghost use Rattle.std.specs.Prelude.{◌≡◌, ◌≢◌, ◌≤◌, ℕ, ◌+◌, Bool, List, [], ◌∷◌, ◌++◌, Result, Some, length, slice_get};
ghost use Rattle.std.specs.List.{All, Contains};
ghost use Rattle.engine_config.specs.declared.config.Config.{Config};
ghost use Rattle.engine_end.specs.Finishing.{Finishes};
ghost use Rattle.engine_end.specs.Meeting.{RingsMeet};
ghost use Rattle.engine_loop.specs.Engines.{until_of};
ghost use Rattle.engine_loop.specs.Turns.{AtWire, MakesTurn};
ghost use Rattle.engine_loop.specs.declared.engine.Engine.{Engine};
ghost use Rattle.engine_loop.specs.declared.records.Turn.{Turn};
ghost use Rattle.gate_io.specs.Wire.{Link};
ghost use Rattle.lease_core.specs.declared.entry.Entry.{Entry};
ghost use Rattle.lease_core.specs.declared.messages.Command.{Command};
ghost use Rattle.lease_core.specs.declared.messages.Command.TheVariants.{Done};
ghost use Rattle.lease_core.specs.declared.messages.Notice.{Notice};
ghost use Rattle.lease_words.specs.Views.{LibraryView};
ghost use Rattle.library_api.specs.Calls.{Call};
ghost use Rattle.library_api.specs.Ends.{EndsView};
ghost use Rattle.library_api.specs.Known.{Known, new_library};
ghost use Rattle.library_api.specs.Posts.{posts_of};
ghost use Rattle.library_api.specs.Reads.{notices_of, reads_of};
ghost use Rattle.library_api.specs.Requests.{after_done};
ghost use Rattle.script_run.specs.Calls.{MakesCall};
ghost use Rattle.library_desk.specs.declared.desk.LibraryDesk.{LibraryDesk};
ghost use Rattle.library_desk.specs.declared.shared.Shared.{Shared};
ghost use Rattle.engine_laws.specs.libraries.Replies.{AreAnswered};
ghost use Rattle.ring_links.specs.Ends.{HeadView, TailView};
ghost use Rattle.ring_links.specs.declared.queue.Full.{Full};
ghost use Rattle.headline.specs.Needed.{ApiLaws, GoingLaws, RunLaws};
ghost use Rattle.headline.specs.runs.Accounted.{AreNumbered, FitsTable, IsAccountedAt, IsAccountedRun, LeavesAccounted, RunLeavesAccounted, first_machines, no_entries};
ghost use Rattle.headline.specs.runs.Lives.{AreKept, AreUnused, DesksMeet, HasLived, HaveLived, IsInVain, IsLifeAt, IsReportedAs, IsServedAt, Life, SeatStays};
ghost use Rattle.headline.specs.runs.Records.{AllAreReplied, IsAccountedRecord};
ghost use Rattle.headline.specs.runs.Reports.{HandsOn, IsBorneOut, IsReported, positions_kept, posts_kept};
ghost use Rattle.headline.specs.runs.Sides.{DeskGoesOn, RunGoesOn};
ghost use Rattle.run_report.specs.declared.calls.Call.{Call as Kept};
ghost use Rattle.run_report.specs.declared.records.LibReport.{LibReport};
ghost use Rattle.run_report.specs.declared.records.RunRecord.{RunRecord};
ghost use Rattle.engine_loop.specs.Starts.{StartsEngineOf};
ghost use Rattle.script_run.specs.Means.{Leaves, Means, StartsRun};
ghost use Rattle.script_run.specs.Runs.{Carries, CarriesOut};
ghost use Rattle.script_run.specs.declared.run.Run.{Run};
ghost use Rattle.script_text.specs.declared.steps.LibStep.{LibStep};
ghost use Rattle.script_text.specs.declared.steps.Script.{Script};
ghost use Rattle.script_text.specs.declared.steps.Step.{Step};
ghost use Rattle.session_core.specs.State.{State};
ghost use Rattle.engine_laws.specs.texts.Taken.{TookTheirTexts};

use engine_laws::laws::{
    happenings_are_accounted_for, sessions_are_accounted_for, starts_are_accounted_for,
    turns_are_accounted_for,
};
use engine_laws::libraries::{
    messages_are_in_order, messages_lie_within_holdings, requests_are_answered, sends_are_taken,
};
use engine_laws::texts::{logons_are_answered, texts_are_taken};
use engine_laws::walks::turns_are_walks;
use library_api::{
    deeds_are_answered, posts_are_sent, reads_have_no_gap, replies_close_requests,
    requests_are_numbered,
};
use library_desk::laws::serving_happens;
use switchboard::laws::{boards_go_on, boards_stay_ready};

/// A turn is made of its steps, boards go on over whatever happens, and serving a library is happenings: what the laws of
/// runs need of the crates below.
fn turns_and_boards_go_on()
    ensures { GoingLaws }
{
    turns_are_walks();
    boards_go_on();
    boards_stay_ready();
    serving_happens();
}

/// Over a turn, each step of a script and all of them sessions and connections go on, what was pushed to a library
/// and what was popped from it stays, the engine's seat stays at its table, and there are as many libraries.
pub fn runs_go_on()
    ensures itself { (d : LibraryDesk) → DeskGoesOn d d }
    ensures further { (first second third : LibraryDesk) → DeskGoesOn first second → DeskGoesOn second third → DeskGoesOn first third }
    ensures turn { (reading : ℕ) (old new : AtWire) (turn : Turn) → MakesTurn reading old new turn → DeskGoesOn old.engine.sessions new.engine.sessions }
    ensures carries { (step : Step) (old new : Run) → Carries step old new → RunGoesOn old new }
    ensures carries_out { (steps : List Step) (count : ℕ) (old new : Run) → CarriesOut steps count old new → RunGoesOn old new }
{
    turns_and_boards_go_on();
}

/// An engine is accounted for as it begins, behind each turn and each meeting with a library, and in what it leaves
/// with its libraries, whoever drives it.
pub fn engines_are_accounted_for()
    // As it begins no session has an entry, and the session machines are the configured ones.
    ensures first { (config : Config) (moment : ℕ) (shared : Shared) (engine : Engine) → StartsEngineOf config moment shared engine → IsAccountedAt no_entries (first_machines config) engine.moment engine.sessions }
    ensures turn { (before : ℕ → List Entry) (start : ℕ → State) (reading : ℕ) (old new : AtWire) (turn : Turn) → MakesTurn reading old new turn → IsAccountedAt before start old.engine.moment old.engine.sessions
        → IsAccountedAt before start new.engine.moment new.engine.sessions }
    ensures meets { (before : ℕ → List Entry) (start : ℕ → State) (moment library : ℕ) (old new : LibraryDesk) (ends_old ends_new : EndsView) → DesksMeet library old new ends_old ends_new → IsAccountedAt before start moment old
        → IsAccountedAt before start moment new }
    ensures leaves { (before : ℕ → List Entry) (start : ℕ → State) (engine : Engine) (links : ℕ → Link) (seats : List LibraryView) (reports : List LibReport) (left : RunRecord)
        → Finishes seats engine.lines.unkept.items engine.accepted engine.moment (until_of engine) engine.sessions left.engine → left.libraries ≡ reports → IsAccountedAt before start engine.moment engine.sessions
        → TookTheirTexts engine.sessions.desk.board links → All (FitsTable engine.sessions.desk.seat.table.shape.libraries) seats → LeavesAccounted before start engine links seats reports left }
{
    turns_and_boards_go_on();
    happenings_are_accounted_for();
    sessions_are_accounted_for();
    starts_are_accounted_for();
    turns_are_accounted_for();
    messages_are_in_order();
    messages_lie_within_holdings();
    requests_are_answered();
    logons_are_answered();
    texts_are_taken();
    sends_are_taken();
}

/// An engine stays accounted for, and its connections' texts are taken, over whatever a run does with it.
fn engines_and_texts_go_on()
    ensures { (before : ℕ → List Entry) (start : ℕ → State) → RunLaws before start }
{
    turns_and_boards_go_on();
    texts_are_taken();
    engines_are_accounted_for();
}

/// A run is accounted for as it begins, behind each step of its script, and in what it leaves.
pub fn runs_are_accounted_for()
    // As it begins no session has an entry, and the session machines are the configured ones.
    ensures first { (config : Config) (moment : ℕ) (shared : Shared) (run : Run) → StartsRun config moment shared run → IsAccountedRun no_entries (first_machines config) run }
    // Each step keeps the account, and so do the steps one behind another.
    ensures carries { (before : ℕ → List Entry) (start : ℕ → State) (step : Step) (old new : Run) → Carries step old new → IsAccountedRun before start old → IsAccountedRun before start new }
    ensures carries_out { (before : ℕ → List Entry) (start : ℕ → State) (steps : List Step) (count : ℕ) (old new : Run) → CarriesOut steps count old new → IsAccountedRun before start old → IsAccountedRun before start new }
    // What the run leaves is accounted for.
    ensures leaves { (before : ℕ → List Entry) (start : ℕ → State) (run : Run) (left : RunRecord) → Leaves run left → IsAccountedRun before start run → RunLeavesAccounted before start run left }
{
    texts_are_taken();
    engines_are_accounted_for();
    engines_and_texts_go_on();
}

/// What a library did goes on from call to call, whoever makes them: it begins with ends at which nothing was done; each call is
/// kept, or was in vain; the word that all is done isn't kept; and as it meets the engine it stays and was served at its place.
pub fn lives_go_on()
    ensures begins { (requests : ℕ) (life : Life) → AreUnused life.library.ends → life.library ≡ new_library life.library.ends requests → life.calls ≡ [] → HasLived IsReportedAs requests life }
    ensures reports { (requests : ℕ) (what : LibStep) (call : Kept) (old new : Life) → MakesCall what call old.library new.library → new.calls ≡ old.calls ++ call ∷ [] → HasLived IsReportedAs requests old → HasLived IsReportedAs requests new }
    ensures waits { (requests : ℕ) (what : LibStep) (call : Kept) (old new : Life) → MakesCall what call old.library new.library → IsInVain call → new.calls ≡ old.calls → HasLived IsReportedAs requests old → HasLived IsReportedAs requests new }
    ensures tells_end { (requests : ℕ) (finished : Bool) (taken : ℕ) (answer : Result (Unit {0}) (Full Command)) (old new : Life) → new.library ≡ after_done old.library (Done finished) taken answer → new.calls ≡ old.calls
        → HasLived IsReportedAs requests old → HasLived IsReportedAs requests new }
    ensures meets { (requests number : ℕ) (engine_old engine_new : LibraryDesk) (old new : Life) → DesksMeet number engine_old engine_new old.library.ends new.library.ends
        → length old.library.ends.seat.knows.sessions ≤ engine_old.desk.seat.table.shape.sessions → new.library ≡ record (old.library) { ends = new.library.ends } → new.calls ≡ old.calls
        → HasLived IsReportedAs requests old → HasLived IsReportedAs requests new }
    ensures seat { (what : LibStep) (call : Kept) (old new : Known) → MakesCall what call old new → SeatStays old new }
    ensures served { (before : ℕ → List Entry) (place number : ℕ) (engine_old engine_new : LibraryDesk) (tail_old : TailView Command) (head_old : HeadView Notice) (life : Life)
        → RingsMeet number engine_old engine_new tail_old life.library.ends.tail head_old life.library.ends.head → number ≡ place + 1 → AreAnswered before engine_new → IsServedAt engine_new.ends.items place life }
    ensures beside { (place j number : ℕ) (engine_old engine_new : LibraryDesk) (tail_old tail_new : TailView Command) (head_old head_new : HeadView Notice) (life : Life) → j ≢ place
        → RingsMeet number engine_old engine_new tail_old tail_new head_old head_new → number ≡ place + 1 → IsServedAt engine_old.ends.items j life → IsServedAt engine_new.ends.items j life }
{}

/// Each library of a run has lived: by its calls, in order, and the meetings between them it came to what it
/// knows, replied to in order, and what it popped begins what the engine pushed to it. So it is as a run
/// begins, and behind each step.
pub fn libraries_live()
    ensures first { (config : Config) (moment : ℕ) (shared : Shared) (run : Run) → StartsRun config moment shared run → HaveLived config.asks run }
    ensures carries { (before : ℕ → List Entry) (start : ℕ → State) (requests : ℕ) (step : Step) (old new : Run) → Carries step old new → IsAccountedRun before start old → HaveLived requests old → HaveLived requests new }
    ensures carries_out { (before : ℕ → List Entry) (start : ℕ → State) (requests : ℕ) (steps : List Step) (count : ℕ) (old new : Run) → CarriesOut steps count old new → IsAccountedRun before start old
        → HaveLived requests old → HaveLived requests new }
{
    requests_are_numbered();
    engines_and_texts_go_on();
}

/// What is kept of a library's calls says what the library did.
pub fn kept_calls_tell()
    ensures posts { (s : ℕ) (k : Known) (made : List Call) (kept : List Kept) → AreKept IsReportedAs k made kept → posts_kept s kept ≡ posts_of s k made }
    ensures positions { (s lease : ℕ) (k : Known) (made : List Call) (kept : List Kept) → AreKept IsReportedAs k made kept → positions_kept s lease kept ≡ reads_of s lease k made }
    // Each notice that a poll handed on is one of those that were popped, or the one that was kept before.
    ensures notices { (k : Known) (made : List Call) (kept : List Kept) → AreKept IsReportedAs k made kept → All (HandsOn (Contains (notices_of k made))) kept }
{}

/// A library's polls, requests, sends and reads are borne out by what it knows: what the two laws behind this one need of
/// `library_api`.
fn calls_are_answered()
    ensures { ApiLaws }
{
    requests_are_numbered();
    deeds_are_answered();
    posts_are_sent();
    replies_close_requests();
    reads_have_no_gap();
}

/// What is reported of a library as a run ends is borne out by the sessions' journals and logs.
pub fn reports_are_borne_out()
    ensures { (before : ℕ → List Entry) (start : ℕ → State) (requests : ℕ) (engine : Engine) (links : ℕ → Link) (seats : List LibraryView) (reports : List LibReport) (left : RunRecord)
        (leaves : LeavesAccounted before start engine links seats reports left) (place : ℕ) (life : Life) → IsLifeAt requests engine.sessions place life → (report : LibReport) → Contains seats life.library.ends.seat
        → report.number ≡ life.number → report.calls ≡ life.calls → IsReported requests before leaves.gathered.board engine.sessions place report }
{
    calls_are_answered();
}

/// What the record of a script has of its sessions and libraries is accounted for: what it reports of each library
/// is borne out by the sessions' journals and logs.
pub fn scripts_are_accounted_for()
    ensures reported { (before : ℕ → List Entry) (start : ℕ → State) (requests : ℕ) (run : Run) (left : RunRecord) (leaves : RunLeavesAccounted before start run left) → AreNumbered run → HaveLived requests run
        → (place : ℕ) (report : LibReport) → slice_get left.libraries place ≡ Some report → IsReported requests before leaves.gathered.board run.engine.sessions place report }
    ensures borne_out { (before : ℕ → List Entry) (start : ℕ → State) (requests : ℕ) (run : Run) (left : RunRecord) (leaves : RunLeavesAccounted before start run left) → AreNumbered run → HaveLived requests run
        → All (IsBorneOut before leaves.gathered.board left.engine.strays) left.libraries }
    ensures replied { (before : ℕ → List Entry) (start : ℕ → State) (requests : ℕ) (run : Run) (left : RunRecord) (leaves : RunLeavesAccounted before start run left) → AreNumbered run → HaveLived requests run
        → AllAreReplied before leaves.gathered.board run }
    ensures means { (script : Script) (left : RunRecord) → Means script left → IsAccountedRecord script left }
{
    calls_are_answered();
    boards_go_on();
    runs_go_on();
    runs_are_accounted_for();
    libraries_live();
}
