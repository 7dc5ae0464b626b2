//! Laws of a session's events: what its journal tells of acts, runs, texts, sends and moments behind each of
//! them. Each is the contract of a function that does nothing.

ghost use Rattle.std.specs.Prelude.{◌≡◌, ◌≢◌, ◌≤◌, ◌⊎◌, ℕ, List, [], ◌∷◌, ◌++◌, Option, None, Some, length, take, All};
ghost use Rattle.connection_core.specs.Items.{AreItemsOf};
ghost use Rattle.connection_core.specs.Outgoing.{Outgoing, waiting_count, written_text};
ghost use Rattle.resend_plan.specs.Wire.{NamesEntry};
ghost use Rattle.resend_plan.specs.declared.item.Names2.{Names2};
ghost use Rattle.resend_plan.specs.declared.item.WireItem.{WireItem};
ghost use Rattle.lease_core.specs.Runs.{IsNext, IsRun};
ghost use Rattle.lease_core.specs.State.{state_of};
ghost use Rattle.session_book.specs.Acts.{IsBegun, after_acts, after_binding, after_dial, after_end, after_lapse, after_message, after_request, after_ticking};
ghost use Rattle.session_book.specs.Book.{Book, Desk, with_event, with_machine, with_outbox};
ghost use Rattle.session_book.specs.Grounds.{Grounds, RunGrounds};
ghost use Rattle.session_book.specs.Items.{QueuesWhatIsTold};
ghost use Rattle.session_book.specs.Leases.{HasSameLeases};
ghost use Rattle.lease_core.specs.declared.word.Word.{Word};
ghost use Rattle.session_book.specs.Kept.{AreNamesOf, IsBook};
ghost use Rattle.session_book.specs.Moments.{IsTimedRun};
ghost use Rattle.session_core.specs.declared.phases.Phase.TheVariants as Phase;
ghost use Rattle.session_book.specs.Runs.{Handled, IsRunBegun, IsRunOver, handled_of, with_body};
ghost use Rattle.lease_core.specs.declared.entry.Entry.{Entry};
ghost use Rattle.lease_core.specs.declared.entry.Entry.TheVariants.{Admin, Arrive, Bind};
ghost use Rattle.session_core.specs.State.{IsState, State};
ghost use Rattle.session_core.specs.declared.acts.Act.{Act};
ghost use Rattle.session_book.specs.Rereading.{IsAllMarked, WentOn, read_of};
ghost use Rattle.session_book.specs.Reviving.{IsReadBack, ReadBack, after_read, after_resume, nothing_read};
ghost use Rattle.session_book.specs.Sends.{AreSendsOf, new_sends};
ghost use Rattle.message_log.specs.declared.entry.OutEntry.{OutEntry};
ghost use Rattle.session_book.specs.Texts.{IsTextOf, outbound_text};
ghost use Rattle.session_book.specs.Told.{CarriesOut};
ghost use Rattle.lease_core.specs.declared.event.Event.TheVariants.{Binds};
ghost use Rattle.session_core.specs.Ask.{after_ask, ask};
ghost use Rattle.session_core.specs.Receive.{after_receive, receive};
ghost use Rattle.session_core.specs.Tick.{after_tick, tick};
ghost use Rattle.session_book.specs.Waiting.{CanBeWritten, StaysWritable};
ghost use Rattle.session_book.specs.Words.{after_timeout, after_word, shown_sends};

use crate::reviving::texts_tell_session_entries;
use connection_core::{items_have_text, items_stay_queued};
use lease_core::laws::{entries_decide_one_by_one, lines_go_on};
use message_log::{entries_stay, logs_go_on};
use resend_plan::{items_stay, plans_answer};
use session_core::laws::{
    acts_of_messages, acts_of_ticks, moments_dont_matter, phases_follow, runs_in_parts,
    sameness_laws, texts_of_messages,
};

/// What these laws need of the crates below: of the logs and the entries of a journal, and of the
/// session machine.
fn grounds()
    ensures logs { Grounds }
    ensures runs { RunGrounds }
{
    entries_decide_one_by_one();
    entries_stay();
    logs_go_on();
    moments_dont_matter();
    runs_in_parts();
    sameness_laws();
    texts_of_messages();
    acts_of_messages();
    acts_of_ticks();
    items_stay();
    plans_answer();
}

/// What comes to wait on the bound connection is what the journal tells, in order: one item for each
/// message that is numbered, and those of each plan over the log up to there.
pub fn what_is_told_is_queued()
    ensures message { (c at : ℕ) (body : List ℕ) (desk : Desk) → IsBook desk.book → (state_of desk.book.entries).bound ≡ Some c → QueuesWhatIsTold c desk (after_message at body desk) }
    ensures tick { (c at : ℕ) (desk : Desk) → IsBook desk.book → (state_of desk.book.entries).bound ≡ Some c → QueuesWhatIsTold c desk (after_ticking at desk) }
    ensures bind { (c at : ℕ) (body : List ℕ) (desk : Desk) → IsBook desk.book → QueuesWhatIsTold c desk (after_binding at c body desk) }
    ensures dial { (c at : ℕ) (desk : Desk) → IsBook desk.book → QueuesWhatIsTold c desk (after_dial at c desk) }
    ensures word { (c at until : ℕ) (w : Word) (bodies : List (List ℕ)) (desk : Desk) → IsBook desk.book → (state_of desk.book.entries).bound ≡ Some c
        → length bodies ≡ shown_sends desk.book.entries w → QueuesWhatIsTold c desk (after_word at until w bodies desk) }
    ensures timeout { (c at until : ℕ) (old : Word) (bodies : List (List ℕ)) (desk : Desk) → IsBook desk.book → (state_of desk.book.entries).bound ≡ Some c
        → length bodies ≡ shown_sends desk.book.entries old → QueuesWhatIsTold c desk (after_timeout at until old bodies desk) }
    // What queues nothing tells nothing.
    ensures leave { (c d : ℕ) (desk : Desk) → IsBook desk.book → QueuesWhatIsTold c desk (with_outbox (after_end d desk.book) desk.outgoing) }
    ensures request { (c library nr from : ℕ) (desk : Desk) → IsBook desk.book → QueuesWhatIsTold c desk (with_outbox (after_request library nr from desk.book) desk.outgoing) }
    ensures lapse { (c : ℕ) (desk : Desk) → IsBook desk.book → QueuesWhatIsTold c desk (with_outbox (after_lapse desk.book) desk.outgoing) }
    // One event behind another.
    ensures further { (c : ℕ) (first second third : Desk) → QueuesWhatIsTold c first second → QueuesWhatIsTold c second third → QueuesWhatIsTold c first third }
{
    grounds();
}

/// The acts of the session machine are what the journal tells, one entry for each act, in order.
pub fn acts_are_told()
    ensures message { (at : ℕ) (body : List ℕ) (desk : Desk) → IsBook desk.book → CarriesOut (receive desk.book.machine body at).acts desk (after_message at body desk) }
    ensures tick { (at : ℕ) (desk : Desk) → IsBook desk.book → CarriesOut (tick desk.book.machine at).acts desk (after_ticking at desk) }
    // Behind the Bind.
    ensures bind { (c at : ℕ) (body : List ℕ) (desk : Desk) → IsBook desk.book
        → CarriesOut (receive desk.book.machine body at).acts (with_outbox (with_event (Binds c) desk.book) desk.outgoing) (after_binding at c body desk) }
    ensures dial { (c at : ℕ) (desk : Desk) → IsBook desk.book
        → CarriesOut (ask desk.book.machine).acts (with_outbox (with_event (Binds c) desk.book) desk.outgoing) (after_dial at c desk) }
{
    grounds();
}

/// The journal tells of the session's connections, one after another, and of what was handled of
/// each. It begins with no connection, behind any entries that bind the session to none, and each
/// event goes on with it.
pub fn runs_are_told()
    ensures first { (book : Book) → (state_of book.entries).bound ≡ None → IsRunOver book.entries book.machine [] book }
    ensures bind { (before : List Entry) (start : State) (handled : List Handled) (c at : ℕ) (body : List ℕ) (desk : Desk) → IsBook desk.book → IsState desk.book.machine
        → (state_of desk.book.entries).bound ≡ None → desk.book.machine.dials ≡ None → IsRunOver before start handled desk.book
        → IsRunOver before start (handled ++ handled_of c (body ∷ []) ∷ []) (after_binding at c body desk).book }
    ensures dial { (before : List Entry) (start : State) (handled : List Handled) (c at : ℕ) (desk : Desk) → IsBook desk.book → (state_of desk.book.entries).bound ≡ None
        → IsRunOver before start handled desk.book → IsRunOver before start (handled ++ handled_of c [] ∷ []) (after_dial at c desk).book }
    // A message is one more of the last connection.
    ensures message { (before : List Entry) (start : State) (handled : List Handled) (c at : ℕ) (body : List ℕ) (desk : Desk) → IsBook desk.book → IsState desk.book.machine
        → (state_of desk.book.entries).bound ≡ Some c → IsRunOver before start handled desk.book
        → IsRunOver before start (with_body body handled) (after_message at body desk).book }
    ensures leave { (before : List Entry) (start : State) (handled : List Handled) (c : ℕ) (book : Book) → (state_of book.entries).bound ≡ Some c
        → IsRunOver before start handled book → IsRunOver before start handled (after_end c book) }
    // Neither the clock nor the leases add an act.
    ensures tick { (before : List Entry) (start : State) (handled : List Handled) (at : ℕ) (desk : Desk) → IsBook desk.book
        → IsRunOver before start handled desk.book → IsRunOver before start handled (after_ticking at desk).book }
    ensures word { (before : List Entry) (start : State) (handled : List Handled) (at until : ℕ) (w : Word) (bodies : List (List ℕ)) (desk : Desk)
        → IsRunOver before start handled desk.book → IsRunOver before start handled (after_word at until w bodies desk).book }
    ensures timeout { (before : List Entry) (start : State) (handled : List Handled) (at until : ℕ) (old : Word) (bodies : List (List ℕ)) (desk : Desk)
        → IsRunOver before start handled desk.book → IsRunOver before start handled (after_timeout at until old bodies desk).book }
    ensures request { (before : List Entry) (start : State) (handled : List Handled) (library nr from : ℕ) (book : Book)
        → IsRunOver before start handled book → IsRunOver before start handled (after_request library nr from book) }
    ensures lapse { (before : List Entry) (start : State) (handled : List Handled) (book : Book)
        → IsRunOver before start handled book → IsRunOver before start handled (after_lapse book) }
{
    grounds();
}

/// Where memory was wanting the journal tells of a beginning of the acts.
pub fn runs_are_begun()
    ensures bind { (before : List Entry) (start : State) (handled : List Handled) (c at : ℕ) (body : List ℕ) (desk new : Desk) → IsBook desk.book → IsState desk.book.machine
        → (state_of desk.book.entries).bound ≡ None → desk.book.machine.dials ≡ None
        → IsBegun at (receive desk.book.machine body at).acts (with_outbox (with_machine (after_receive desk.book.machine body at) (with_event (Binds c) desk.book)) desk.outgoing) new
        → IsRunOver before start handled desk.book → IsRunBegun before start (handled ++ handled_of c (body ∷ []) ∷ []) new.book }
    ensures dial { (before : List Entry) (start : State) (handled : List Handled) (c at : ℕ) (desk new : Desk) → IsBook desk.book → (state_of desk.book.entries).bound ≡ None
        → IsBegun at (ask desk.book.machine).acts (with_outbox (with_machine (after_ask desk.book.machine at) (with_event (Binds c) desk.book)) desk.outgoing) new
        → IsRunOver before start handled desk.book → IsRunBegun before start (handled ++ handled_of c [] ∷ []) new.book }
    ensures message { (before : List Entry) (start : State) (handled : List Handled) (c at : ℕ) (body : List ℕ) (desk new : Desk) → IsBook desk.book → IsState desk.book.machine → (state_of desk.book.entries).bound ≡ Some c
        → IsBegun at (receive desk.book.machine body at).acts (with_outbox (with_machine (after_receive desk.book.machine body at) desk.book) desk.outgoing) new
        → IsRunOver before start handled desk.book → IsRunBegun before start (with_body body handled) new.book }
    // What the clock asks for tells of no act, in part or whole.
    ensures tick { (before : List Entry) (start : State) (handled : List Handled) (at : ℕ) (desk new : Desk) → IsBook desk.book
        → IsBegun at (tick desk.book.machine at).acts (with_outbox (with_machine (after_tick desk.book.machine at) desk.book) desk.outgoing) new
        → IsRunOver before start handled desk.book → IsRunOver before start handled new.book }
{
    grounds();
}

/// What is queued on a connection is what the journal tells of it, in order, and so what is written
/// begins its outbound text, whatever comes: while the session is bound to it, and from then on.
pub fn texts_are_told()
    // Nothing was queued before the connection is bound.
    ensures bind { (names : Names2) (before first : List Entry) (c at : ℕ) (body : List ℕ) (desk : Desk) → IsBook desk.book → desk.book.entries ≡ before ++ first
        → AreItemsOf names desk.book.outbound [] desk.outgoing → IsTextOf names before c (after_binding at c body desk).book (after_binding at c body desk).outgoing }
    ensures dial { (names : Names2) (before first : List Entry) (c at : ℕ) (desk : Desk) → IsBook desk.book → desk.book.entries ≡ before ++ first
        → AreItemsOf names desk.book.outbound [] desk.outgoing → IsTextOf names before c (after_dial at c desk).book (after_dial at c desk).outgoing }
    // On the session that is bound to it.
    ensures message { (names : Names2) (before : List Entry) (c at : ℕ) (body : List ℕ) (desk : Desk) → IsBook desk.book → (state_of desk.book.entries).bound ≡ Some c
        → IsTextOf names before c desk.book desk.outgoing → IsTextOf names before c (after_message at body desk).book (after_message at body desk).outgoing }
    ensures tick { (names : Names2) (before : List Entry) (c at : ℕ) (desk : Desk) → IsBook desk.book → (state_of desk.book.entries).bound ≡ Some c
        → IsTextOf names before c desk.book desk.outgoing → IsTextOf names before c (after_ticking at desk).book (after_ticking at desk).outgoing }
    ensures word { (names : Names2) (before : List Entry) (c at until : ℕ) (w : Word) (bodies : List (List ℕ)) (desk : Desk) → IsBook desk.book → (state_of desk.book.entries).bound ≡ Some c
        → length bodies ≡ shown_sends desk.book.entries w
        → IsTextOf names before c desk.book desk.outgoing → IsTextOf names before c (after_word at until w bodies desk).book (after_word at until w bodies desk).outgoing }
    ensures timeout { (names : Names2) (before : List Entry) (c at until : ℕ) (old : Word) (bodies : List (List ℕ)) (desk : Desk) → IsBook desk.book → (state_of desk.book.entries).bound ≡ Some c
        → length bodies ≡ shown_sends desk.book.entries old
        → IsTextOf names before c desk.book desk.outgoing → IsTextOf names before c (after_timeout at until old bodies desk).book (after_timeout at until old bodies desk).outgoing }
    ensures request { (names : Names2) (before : List Entry) (c library nr from : ℕ) (desk : Desk) → IsBook desk.book → (state_of desk.book.entries).bound ≡ Some c
        → IsTextOf names before c desk.book desk.outgoing → IsTextOf names before c (after_request library nr from desk.book) desk.outgoing }
    ensures lapse { (names : Names2) (before : List Entry) (c : ℕ) (desk : Desk) → IsBook desk.book → (state_of desk.book.entries).bound ≡ Some c
        → IsTextOf names before c desk.book desk.outgoing → IsTextOf names before c (after_lapse desk.book) desk.outgoing }
    // Where texts are made and written, as `items_stay_queued` of connection_core has it.
    ensures kept { (names : Names2) (before : List Entry) (c : ℕ) (book : Book) (out later : Outgoing)
        → ((items : List WireItem) → AreItemsOf names book.outbound items out → AreItemsOf names book.outbound items later)
        → IsTextOf names before c book out → IsTextOf names before c book later }
    ensures leave { (names : Names2) (before : List Entry) (c d : ℕ) (book : Book) (out : Outgoing) → IsTextOf names before c book out → IsTextOf names before c (after_end d book) out }
    // What is written begins the outbound text.
    ensures written { (names : Names2) (before : List Entry) (c : ℕ) (book : Book) (out : Outgoing) (text : IsTextOf names before c book out)
        → written_text out ≡ take out.written (outbound_text names book.outbound text.spell) }
    // Where nothing waits, all of it is written.
    ensures whole { (names : Names2) (before : List Entry) (c : ℕ) (book : Book) (out : Outgoing) (text : IsTextOf names before c book out)
        → waiting_count out ≡ 0 → written_text out ≡ outbound_text names book.outbound text.spell }
    // What has no text names entries of the log, as `prepare` wants it.
    ensures unmade { (names : Names2) (before : List Entry) (c : ℕ) (book : Book) (out : Outgoing) → IsTextOf names before c book out → All (NamesEntry book.outbound) out.unmade }
{
    grounds();
    items_stay_queued();
    items_have_text();
}

/// The outbound text of a connection stays what it is while the session goes on with others.
pub fn texts_stay()
    ensures message { (names : Names2) (before : List Entry) (c at : ℕ) (body : List ℕ) (desk : Desk) (out : Outgoing) → IsBook desk.book → (state_of desk.book.entries).bound ≢ Some c
        → IsTextOf names before c desk.book out → IsTextOf names before c (after_message at body desk).book out }
    ensures tick { (names : Names2) (before : List Entry) (c at : ℕ) (desk : Desk) (out : Outgoing) → IsBook desk.book → (state_of desk.book.entries).bound ≢ Some c
        → IsTextOf names before c desk.book out → IsTextOf names before c (after_ticking at desk).book out }
    ensures word { (names : Names2) (before : List Entry) (c at until : ℕ) (w : Word) (bodies : List (List ℕ)) (desk : Desk) (out : Outgoing) → (state_of desk.book.entries).bound ≢ Some c
        → IsTextOf names before c desk.book out → IsTextOf names before c (after_word at until w bodies desk).book out }
    ensures timeout { (names : Names2) (before : List Entry) (c at until : ℕ) (old : Word) (bodies : List (List ℕ)) (desk : Desk) (out : Outgoing) → (state_of desk.book.entries).bound ≢ Some c
        → IsTextOf names before c desk.book out → IsTextOf names before c (after_timeout at until old bodies desk).book out }
    ensures request { (names : Names2) (before : List Entry) (c library nr from : ℕ) (book : Book) (out : Outgoing) → (state_of book.entries).bound ≢ Some c
        → IsTextOf names before c book out → IsTextOf names before c (after_request library nr from book) out }
    ensures lapse { (names : Names2) (before : List Entry) (c : ℕ) (book : Book) (out : Outgoing) → (state_of book.entries).bound ≢ Some c
        → IsTextOf names before c book out → IsTextOf names before c (after_lapse book) out }
    // Another connection is bound.
    ensures bind { (names : Names2) (before : List Entry) (c d at : ℕ) (body : List ℕ) (desk : Desk) (out : Outgoing) → IsBook desk.book → d ≢ c
        → IsTextOf names before c desk.book out → IsTextOf names before c (after_binding at d body desk).book out }
    ensures dial { (names : Names2) (before : List Entry) (c d at : ℕ) (desk : Desk) (out : Outgoing) → IsBook desk.book → d ≢ c
        → IsTextOf names before c desk.book out → IsTextOf names before c (after_dial at d desk).book out }
{
    grounds();
    items_stay_queued();
}

/// What the outbound log has for a library's sends is what was taken from it, in order: each body as
/// it was taken, with the moment at which it was recorded.
pub fn sends_are_told()
    ensures first { (library : ℕ) (book : Book) → AreSendsOf library book.entries [] book }
    ensures word { (library : ℕ) (before : List Entry) (sends : List OutEntry) (at until : ℕ) (w : Word) (bodies : List (List ℕ)) (desk : Desk) → IsBook desk.book
        → length bodies ≡ shown_sends desk.book.entries w → AreSendsOf library before sends desk.book
        → AreSendsOf library before (sends ++ new_sends library desk.book at bodies) (after_word at until w bodies desk).book }
    ensures timeout { (library : ℕ) (before : List Entry) (sends : List OutEntry) (at until : ℕ) (old : Word) (bodies : List (List ℕ)) (desk : Desk) → IsBook desk.book
        → length bodies ≡ shown_sends desk.book.entries old → AreSendsOf library before sends desk.book
        → AreSendsOf library before (sends ++ new_sends library desk.book at bodies) (after_timeout at until old bodies desk).book }
    // Nothing else sends for a library.
    ensures message { (library : ℕ) (before : List Entry) (sends : List OutEntry) (at : ℕ) (body : List ℕ) (desk : Desk) → IsBook desk.book
        → AreSendsOf library before sends desk.book → AreSendsOf library before sends (after_message at body desk).book }
    ensures tick { (library : ℕ) (before : List Entry) (sends : List OutEntry) (at : ℕ) (desk : Desk) → IsBook desk.book
        → AreSendsOf library before sends desk.book → AreSendsOf library before sends (after_ticking at desk).book }
    ensures bind { (library : ℕ) (before : List Entry) (sends : List OutEntry) (c at : ℕ) (body : List ℕ) (desk : Desk) → IsBook desk.book
        → AreSendsOf library before sends desk.book → AreSendsOf library before sends (after_binding at c body desk).book }
    ensures dial { (library : ℕ) (before : List Entry) (sends : List OutEntry) (c at : ℕ) (desk : Desk) → IsBook desk.book
        → AreSendsOf library before sends desk.book → AreSendsOf library before sends (after_dial at c desk).book }
    ensures leave { (library : ℕ) (before : List Entry) (sends : List OutEntry) (c : ℕ) (book : Book) → AreSendsOf library before sends book → AreSendsOf library before sends (after_end c book) }
    ensures request { (library : ℕ) (before : List Entry) (sends : List OutEntry) (by nr from : ℕ) (book : Book)
        → AreSendsOf library before sends book → AreSendsOf library before sends (after_request by nr from book) }
    ensures lapse { (library : ℕ) (before : List Entry) (sends : List OutEntry) (book : Book) → AreSendsOf library before sends book → AreSendsOf library before sends (after_lapse book) }
{
    grounds();
}

/// A Heartbeat that answers no TestRequest comes where nothing was sent on its connection for
/// HeartBtInt, over whole runs whose events come in the order of their moments.
pub fn beats_come_in_time()
    ensures first { (book : Book) (at : ℕ) → (state_of book.entries).bound ≡ None → book.machine.sent ≤ at → IsTimedRun book.entries book.machine [] at book }
    // Time goes on.
    ensures later { (before : List Entry) (start : State) (handled : List Handled) (moment at : ℕ) (book : Book) → moment ≤ at → IsTimedRun before start handled moment book → IsTimedRun before start handled at book }
    ensures bind { (before : List Entry) (start : State) (handled : List Handled) (moment c at : ℕ) (body : List ℕ) (desk : Desk) → IsBook desk.book → IsState desk.book.machine
        → (state_of desk.book.entries).bound ≡ None → desk.book.machine.dials ≡ None → moment ≤ at → IsTimedRun before start handled moment desk.book
        → IsTimedRun before start (handled ++ handled_of c (body ∷ []) ∷ []) at (after_binding at c body desk).book }
    ensures dial { (before : List Entry) (start : State) (handled : List Handled) (moment c at : ℕ) (desk : Desk) → IsBook desk.book → (state_of desk.book.entries).bound ≡ None → moment ≤ at
        → IsTimedRun before start handled moment desk.book → IsTimedRun before start (handled ++ handled_of c [] ∷ []) at (after_dial at c desk).book }
    ensures message { (before : List Entry) (start : State) (handled : List Handled) (moment c at : ℕ) (body : List ℕ) (desk : Desk) → IsBook desk.book → IsState desk.book.machine
        → (state_of desk.book.entries).bound ≡ Some c → desk.book.machine.phase ≢ Phase.Off → moment ≤ at → IsTimedRun before start handled moment desk.book
        → IsTimedRun before start (with_body body handled) at (after_message at body desk).book }
    ensures tick { (before : List Entry) (start : State) (handled : List Handled) (moment at : ℕ) (desk : Desk) → IsBook desk.book → moment ≤ at
        → IsTimedRun before start handled moment desk.book → IsTimedRun before start handled at (after_ticking at desk).book }
    ensures leave { (before : List Entry) (start : State) (handled : List Handled) (moment c : ℕ) (book : Book) → (state_of book.entries).bound ≡ Some c
        → IsTimedRun before start handled moment book → IsTimedRun before start handled moment (after_end c book) }
    ensures word { (before : List Entry) (start : State) (handled : List Handled) (moment at until : ℕ) (w : Word) (bodies : List (List ℕ)) (desk : Desk) → IsBook desk.book
        → length bodies ≡ shown_sends desk.book.entries w → moment ≤ at
        → IsTimedRun before start handled moment desk.book → IsTimedRun before start handled at (after_word at until w bodies desk).book }
    ensures timeout { (before : List Entry) (start : State) (handled : List Handled) (moment at until : ℕ) (old : Word) (bodies : List (List ℕ)) (desk : Desk) → IsBook desk.book
        → length bodies ≡ shown_sends desk.book.entries old → moment ≤ at
        → IsTimedRun before start handled moment desk.book → IsTimedRun before start handled at (after_timeout at until old bodies desk).book }
    ensures request { (before : List Entry) (start : State) (handled : List Handled) (moment library nr from : ℕ) (desk : Desk) → IsBook desk.book
        → IsTimedRun before start handled moment desk.book → IsTimedRun before start handled moment (after_request library nr from desk.book) }
    ensures lapse { (before : List Entry) (start : State) (handled : List Handled) (moment : ℕ) (desk : Desk) → IsBook desk.book
        → IsTimedRun before start handled moment desk.book → IsTimedRun before start handled moment (after_lapse desk.book) }
{
    grounds();
    phases_follow();
    plans_answer();
}

/// What waits can be written, whatever comes: on the session's connection, where further items come to
/// wait behind those that were queued, and on any other one.
pub fn what_waits_can_be_written()
    ensures message { (at : ℕ) (body : List ℕ) (desk : Desk) → IsBook desk.book → StaysWritable desk (after_message at body desk) }
    ensures bind { (c at : ℕ) (body : List ℕ) (desk : Desk) → IsBook desk.book → StaysWritable desk (after_binding at c body desk) }
    ensures dial { (c at : ℕ) (desk : Desk) → IsBook desk.book → StaysWritable desk (after_dial at c desk) }
    ensures tick { (at : ℕ) (desk : Desk) → IsBook desk.book → StaysWritable desk (after_ticking at desk) }
    ensures word { (at until : ℕ) (w : Word) (bodies : List (List ℕ)) (desk : Desk) → IsBook desk.book → StaysWritable desk (after_word at until w bodies desk) }
    ensures timeout { (at until : ℕ) (old : Word) (bodies : List (List ℕ)) (desk : Desk) → IsBook desk.book → StaysWritable desk (after_timeout at until old bodies desk) }
    ensures leave { (c : ℕ) (desk : Desk) → IsBook desk.book → StaysWritable desk (with_outbox (after_end c desk.book) desk.outgoing) }
    ensures request { (library nr from : ℕ) (desk : Desk) → IsBook desk.book → StaysWritable desk (with_outbox (after_request library nr from desk.book) desk.outgoing) }
    ensures lapse { (desk : Desk) → IsBook desk.book → StaysWritable desk (with_outbox (after_lapse desk.book) desk.outgoing) }
    // Where memory was wanting: nothing happened, or only some of the acts were carried out.
    ensures begun_message { (at : ℕ) (body : List ℕ) (desk new : Desk) → IsBook desk.book
        → (new ≡ desk) ⊎ IsBegun at (receive desk.book.machine body at).acts (with_outbox (with_machine (after_receive desk.book.machine body at) desk.book) desk.outgoing) new
        → StaysWritable desk new }
    ensures begun_bind { (c at : ℕ) (body : List ℕ) (desk new : Desk) → IsBook desk.book
        → (new ≡ desk) ⊎ IsBegun at (receive desk.book.machine body at).acts (with_outbox (with_machine (after_receive desk.book.machine body at) (with_event (Binds c) desk.book)) desk.outgoing) new
        → StaysWritable desk new }
    ensures begun_dial { (c at : ℕ) (desk new : Desk) → IsBook desk.book
        → (new ≡ desk) ⊎ IsBegun at (ask desk.book.machine).acts (with_outbox (with_machine (after_ask desk.book.machine at) (with_event (Binds c) desk.book)) desk.outgoing) new
        → StaysWritable desk new }
    ensures begun_tick { (at : ℕ) (desk new : Desk) → IsBook desk.book
        → (new ≡ desk) ⊎ IsBegun at (tick desk.book.machine at).acts (with_outbox (with_machine (after_tick desk.book.machine at) desk.book) desk.outgoing) new
        → StaysWritable desk new }
    // So what could be written can be written.
    ensures here { (old new : Desk) → StaysWritable old new → CanBeWritten old.book old.outgoing → CanBeWritten new.book new.outgoing }
    ensures there { (old new : Desk) (out : Outgoing) → StaysWritable old new → CanBeWritten old.book out → CanBeWritten new.book out }
    // Also where texts are made and written, with the names and the log that the session lends.
    ensures kept { (book : Book) (names : Names2) (log : List (List OutEntry)) (out later : Outgoing) → AreNamesOf book.machine.names names → log ≡ book.outbound
        → ((items : List WireItem) → AreItemsOf names log items out → AreItemsOf names log items later) → CanBeWritten book out → CanBeWritten book later }
    // What has no text names entries of the log, as `prepare` wants it.
    ensures unmade { (book : Book) (out : Outgoing) → CanBeWritten book out → All (NamesEntry book.outbound) out.unmade }
{
    grounds();
    items_stay_queued();
    items_have_text();
}

/// What the session machine asks for, and the Bind and the end of a connection, leave the leases as they
/// are: their lines, and for whom the session is reserved. How often it can be granted, no event
/// changes.
pub fn leases_stay()
    ensures message { (at : ℕ) (body : List ℕ) (desk : Desk) → HasSameLeases desk.book (after_message at body desk).book }
    ensures bind { (c at : ℕ) (body : List ℕ) (desk : Desk) → HasSameLeases desk.book (after_binding at c body desk).book }
    ensures dial { (c at : ℕ) (desk : Desk) → HasSameLeases desk.book (after_dial at c desk).book }
    ensures tick { (at : ℕ) (desk : Desk) → HasSameLeases desk.book (after_ticking at desk).book }
    ensures leave { (c : ℕ) (book : Book) → HasSameLeases book (after_end c book) }
    ensures acts { (at : ℕ) (acts : List Act) (desk : Desk) → HasSameLeases desk.book (after_acts at acts desk).book }
    // Where memory was wanting, also behind the Bind of a connection.
    ensures begun { (at : ℕ) (acts : List Act) (start new : Desk) → IsBegun at acts start new → HasSameLeases start.book new.book }
    ensures opened { (c at : ℕ) (acts : List Act) (machine : State) (desk new : Desk)
        → IsBegun at acts (with_outbox (with_machine machine (with_event (Binds c) desk.book)) desk.outgoing) new → HasSameLeases desk.book new.book }
    // What leases do doesn't change how often it can be granted.
    ensures word { (at until : ℕ) (w : Word) (bodies : List (List ℕ)) (desk : Desk) → (after_word at until w bodies desk).book.leases ≡ desk.book.leases }
    ensures timeout { (at until : ℕ) (old : Word) (bodies : List (List ℕ)) (desk : Desk) → (after_timeout at until old bodies desk).book.leases ≡ desk.book.leases }
    ensures request { (library nr from : ℕ) (book : Book) → (after_request library nr from book).leases ≡ book.leases }
    ensures lapse { (book : Book) → (after_lapse book).leases ≡ book.leases }
{
    entries_decide_one_by_one();
    lines_go_on();
}

/// A bind and a dial give the session its connection, a leave takes it, and nothing else changes it.
pub fn connections_follow()
    ensures bind { (c at : ℕ) (body : List ℕ) (desk : Desk) → (state_of (after_binding at c body desk).book.entries).bound ≡ Some c }
    ensures dial { (c at : ℕ) (desk : Desk) → (state_of (after_dial at c desk).book.entries).bound ≡ Some c }
    ensures leave { (c : ℕ) (book : Book) → (state_of (after_end c book).entries).bound ≡ None }
    ensures message { (at : ℕ) (body : List ℕ) (desk : Desk) → (state_of (after_message at body desk).book.entries).bound ≡ (state_of desk.book.entries).bound }
    ensures tick { (at : ℕ) (desk : Desk) → (state_of (after_ticking at desk).book.entries).bound ≡ (state_of desk.book.entries).bound }
    ensures word { (at until : ℕ) (w : Word) (bodies : List (List ℕ)) (desk : Desk) → (state_of (after_word at until w bodies desk).book.entries).bound ≡ (state_of desk.book.entries).bound }
    ensures timeout { (at until : ℕ) (old : Word) (bodies : List (List ℕ)) (desk : Desk)
        → (state_of (after_timeout at until old bodies desk).book.entries).bound ≡ (state_of desk.book.entries).bound }
    ensures request { (library nr from : ℕ) (book : Book) → (state_of (after_request library nr from book).entries).bound ≡ (state_of book.entries).bound }
    ensures lapse { (book : Book) → (state_of (after_lapse book).entries).bound ≡ (state_of book.entries).bound }
    // Where memory was wanting, also behind the Bind of a connection.
    ensures begun { (at : ℕ) (acts : List Act) (start new : Desk) → IsBegun at acts start new → (state_of new.book.entries).bound ≡ (state_of start.book.entries).bound }
    ensures opened { (c at : ℕ) (acts : List Act) (machine : State) (desk new : Desk)
        → IsBegun at acts (with_outbox (with_machine machine (with_event (Binds c) desk.book)) desk.outgoing) new → (state_of new.book.entries).bound ≡ Some c }
{
    entries_decide_one_by_one();
}

/// A session goes on: behind each event its journal and its logs begin with what they had before.
pub fn sessions_go_on()
    ensures message { (at : ℕ) (body : List ℕ) (desk : Desk) → WentOn desk.book (after_message at body desk).book }
    ensures bind { (c at : ℕ) (body : List ℕ) (desk : Desk) → WentOn desk.book (after_binding at c body desk).book }
    ensures dial { (c at : ℕ) (desk : Desk) → WentOn desk.book (after_dial at c desk).book }
    ensures tick { (at : ℕ) (desk : Desk) → WentOn desk.book (after_ticking at desk).book }
    ensures leave { (c : ℕ) (book : Book) → WentOn book (after_end c book) }
    ensures word { (at until : ℕ) (w : Word) (bodies : List (List ℕ)) (desk : Desk) → WentOn desk.book (after_word at until w bodies desk).book }
    ensures timeout { (at until : ℕ) (old : Word) (bodies : List (List ℕ)) (desk : Desk) → WentOn desk.book (after_timeout at until old bodies desk).book }
    ensures request { (library nr from : ℕ) (book : Book) → WentOn book (after_request library nr from book) }
    ensures lapse { (book : Book) → WentOn book (after_lapse book) }
    // Where memory was wanting, also behind the Bind of a connection.
    ensures begun { (at : ℕ) (acts : List Act) (start new : Desk) → IsBegun at acts start new → WentOn start.book new.book }
    ensures opened { (c at : ℕ) (acts : List Act) (machine : State) (desk new : Desk)
        → IsBegun at acts (with_outbox (with_machine machine (with_event (Binds c) desk.book)) desk.outgoing) new → WentOn desk.book new.book }
    // Nothing happened, and one event behind another.
    ensures itself { (book : Book) → WentOn book book }
    ensures further { (first second third : Book) → WentOn first second → WentOn second third → WentOn first third }
    // What was accepted stays where it is.
    ensures accepted { (before book : Book) → WentOn before book → take (length before.inbound) book.inbound ≡ before.inbound }
{
    grounds();
}

/// Only what is received comes to the inbound log.
pub fn inbound_logs_stay()
    ensures dial { (c at : ℕ) (desk : Desk) → (after_dial at c desk).book.inbound ≡ desk.book.inbound }
    ensures tick { (at : ℕ) (desk : Desk) → (after_ticking at desk).book.inbound ≡ desk.book.inbound }
    ensures leave { (c : ℕ) (book : Book) → (after_end c book).inbound ≡ book.inbound }
    ensures word { (at until : ℕ) (w : Word) (bodies : List (List ℕ)) (desk : Desk) → (after_word at until w bodies desk).book.inbound ≡ desk.book.inbound }
    ensures timeout { (at until : ℕ) (old : Word) (bodies : List (List ℕ)) (desk : Desk) → (after_timeout at until old bodies desk).book.inbound ≡ desk.book.inbound }
    ensures request { (library nr from : ℕ) (book : Book) → (after_request library nr from book).inbound ≡ book.inbound }
    ensures lapse { (book : Book) → (after_lapse book).inbound ≡ book.inbound }
    // Where memory was wanting.
    ensures begun_dial { (c at : ℕ) (desk new : Desk)
        → IsBegun at (ask desk.book.machine).acts (with_outbox (with_machine (after_ask desk.book.machine at) (with_event (Binds c) desk.book)) desk.outgoing) new
        → new.book.inbound ≡ desk.book.inbound }
    ensures begun_tick { (at : ℕ) (desk new : Desk) → IsBegun at (tick desk.book.machine at).acts (with_outbox (with_machine (after_tick desk.book.machine at) desk.book) desk.outgoing) new
        → new.book.inbound ≡ desk.book.inbound }
{
    acts_of_ticks();
}

/// The outbound log marks each session message as its type field tells, and no send: so it is of a new
/// session, and behind each event, also of a session that goes on from what was read back.
pub fn messages_are_marked()
    // Nothing is to be read back of a new session.
    ensures first { (leases : ℕ) → IsAllMarked (nothing_read leases) }
    // The journal is lawful, as `SessionBook::entries` tells.
    ensures message { (at : ℕ) (body : List ℕ) (desk : Desk) → IsBook desk.book → IsRun desk.book.leases desk.book.entries
        → IsAllMarked (read_of desk.book) → IsAllMarked (read_of (after_message at body desk).book) }
    ensures bind { (c at : ℕ) (body : List ℕ) (desk : Desk) → IsBook desk.book → IsRun desk.book.leases desk.book.entries
        → IsAllMarked (read_of desk.book) → IsAllMarked (read_of (after_binding at c body desk).book) }
    ensures dial { (c at : ℕ) (desk : Desk) → IsBook desk.book → IsRun desk.book.leases desk.book.entries
        → IsAllMarked (read_of desk.book) → IsAllMarked (read_of (after_dial at c desk).book) }
    ensures tick { (at : ℕ) (desk : Desk) → IsBook desk.book → IsRun desk.book.leases desk.book.entries
        → IsAllMarked (read_of desk.book) → IsAllMarked (read_of (after_ticking at desk).book) }
    ensures word { (at until : ℕ) (w : Word) (bodies : List (List ℕ)) (desk : Desk) → IsBook desk.book → IsRun desk.book.leases desk.book.entries
        → length bodies ≡ shown_sends desk.book.entries w → IsAllMarked (read_of desk.book) → IsAllMarked (read_of (after_word at until w bodies desk).book) }
    ensures timeout { (at until : ℕ) (old : Word) (bodies : List (List ℕ)) (desk : Desk) → IsBook desk.book → IsRun desk.book.leases desk.book.entries
        → length bodies ≡ shown_sends desk.book.entries old → IsAllMarked (read_of desk.book) → IsAllMarked (read_of (after_timeout at until old bodies desk).book) }
    ensures leave { (c : ℕ) (book : Book) → IsAllMarked (read_of book) → IsAllMarked (read_of (after_end c book)) }
    ensures request { (library nr from : ℕ) (book : Book) → IsAllMarked (read_of book) → IsAllMarked (read_of (after_request library nr from book)) }
    ensures lapse { (book : Book) → IsAllMarked (read_of book) → IsAllMarked (read_of (after_lapse book)) }
    // Where memory was wanting, also behind the Bind of a connection.
    ensures begun { (at : ℕ) (acts : List Act) (machine : State) (desk new : Desk) → IsBook desk.book → IsRun desk.book.leases desk.book.entries
        → IsBegun at acts (with_outbox (with_machine machine desk.book) desk.outgoing) new → IsAllMarked (read_of desk.book) → IsAllMarked (read_of new.book) }
    ensures opened { (c at : ℕ) (acts : List Act) (machine : State) (desk new : Desk) → IsBook desk.book → IsRun desk.book.leases desk.book.entries
        → IsBegun at acts (with_outbox (with_machine machine (with_event (Binds c) desk.book)) desk.outgoing) new → IsAllMarked (read_of desk.book) → IsAllMarked (read_of new.book) }
    // What is read back of a session, and the session that goes on behind it.
    ensures read { (e : Entry) (at : ℕ) (body : List ℕ) (read : ReadBack) → IsReadBack read → IsRun read.leases read.entries → IsNext read.leases (state_of read.entries) e
        → IsAllMarked read → IsAllMarked (after_read e at body read) }
    ensures resume { (us them : List ℕ) (dials : Option ℕ) (expected until : ℕ) (read : ReadBack) → IsAllMarked read → IsAllMarked (read_of (after_resume us them dials expected until read)) }
{
    grounds();
    texts_tell_session_entries();
}

/// Records that no session leaves: logs of which no entry tells, and entries that no connection asked
/// for, as a Logon's answer before the Bind.
pub fn wrong_records_are_none()
    ensures inbound { (book : Book) (body : List ℕ) → book.entries ≡ [] → book.inbound ≡ body ∷ [] → IsBook book → ⊥ }
    ensures outbound { (book : Book) (entry : OutEntry) → book.entries ≡ [] → book.outbound ≡ (entry ∷ []) ∷ [] → IsBook book → ⊥ }
    ensures before_bind { (start : State) (handled : List Handled) (c number : ℕ) (book : Book) → book.entries ≡ Admin number ∷ Bind c ∷ [] → IsRunOver [] start handled book → ⊥ }
    ensures unasked { (start : State) (c pos : ℕ) (book : Book) → book.entries ≡ Bind c ∷ Arrive pos ∷ [] → IsRunOver [] start (handled_of c [] ∷ []) book → start.dials ≡ None → ⊥ }
    // Another connection than the one that was bound.
    ensures another { (start : State) (c d : ℕ) (bodies : List (List ℕ)) (book : Book) → book.entries ≡ Bind c ∷ [] → IsRunOver [] start (handled_of d bodies ∷ []) book → c ≡ d }
{}
