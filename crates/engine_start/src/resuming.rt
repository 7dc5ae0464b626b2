//! The lease table behind the journals of sessions.

ghost use Rattle.std.specs.Prelude.{◌≡◌, ℕ, ◌≤◌, ◌<◌, IfOk, length};
ghost use Rattle.engine_config.specs.Config.{IsConfig};
ghost use Rattle.engine_start.specs.Restarts.{lines_of_sessions, resumed_shape};
ghost use Rattle.lease_core.specs.Lines.{lines_of};
ghost use Rattle.lease_core.specs.State.{owner_of, state_of};
ghost use Rattle.lease_core.specs.declared.limits.TheConstants.{MOST_LEASES};
ghost use Rattle.lease_desk.specs.Desk.{owner_at};
ghost use Rattle.lease_words.specs.Leases.{Each};
ghost use Rattle.lease_words.specs.Registries.{IsEndedJournal, kept_lines, lines_of_each};
ghost use Rattle.lease_words.specs.Tokens.{new_engine_seat, new_library_seats};
ghost use Rattle.lease_words.specs.Views.{engine_at, pending};
ghost use Rattle.switchboard.specs.Board.{book_at};

use engine_config::Config;
use gate_io::NoMemory;
use lease_core::laws::{grants_find_nobody, lines_tell_the_owner, one_owner_at_a_time};
use lease_core::{Recovery, Registry};
use lease_words::{EngineSeat, Leases, LibrarySeat};
use session_book::SessionBook;
use std::alloc::Global;
use switchboard::Switchboard;

/// The table of a configuration behind the journals of its sessions, of which no library has one, with
/// the engine's seat and those of the libraries. It takes time in proportion to the entries.
pub(crate) fn resume_table(
    alloc: Global,
    config: &Config,
    board: &Switchboard,
) -> Result<(Leases, EngineSeat, Vec<LibrarySeat>), NoMemory>
    requires config { IsConfig config.now }
    requires count { length board.now.sessions ≡ length config.now.names }
    requires leases { (s : ℕ) → s < length board.now.sessions → (book_at board.now s).leases ≡ config.now.leases }
    requires owned { (s : ℕ) → s < length board.now.sessions → owner_at board.now s ≡ 0 }
    ensures shape { IfOk result (λ made. made.0.shape ≡ resumed_shape config.now board.now) }
    ensures engine { IfOk result (λ made. made.1 ≡ new_engine_seat made.0) }
    ensures libraries { IfOk result (λ made. made.2.items ≡ new_library_seats made.0 1 config.now.libraries) }
    ensures taken { IfOk result (λ made. (s : ℕ) → pending (engine_at made.1 s) ≡ 0) }
{
    let journals = journals_of(alloc, board, config.leases)?;
    Leases::resume(
        alloc,
        journals.as_slice(),
        config.libraries,
        config.lane,
        config.sends,
    )
}

// The journals of the sessions, of which each can be granted so many times.
fn journals_of(alloc: Global, board: &Switchboard, leases: u32) -> Result<Vec<Registry>, NoMemory>
    requires few { leases ≤ MOST_LEASES }
    requires leases { (s : ℕ) → s < length board.now.sessions → (book_at board.now s).leases ≡ leases }
    requires owned { (s : ℕ) → s < length board.now.sessions → owner_at board.now s ≡ 0 }
    ensures lines { IfOk result (λ made. lines_of_each made.items ≡ lines_of_sessions board.now.sessions) }
    ensures ended { IfOk result (λ made. Each IsEndedJournal made.items) }
{
    let mut journals = Vec::new(alloc);
    for s in 0..board.sessions() {
        journals.push(journal_of(alloc, board.session(s), leases)?)?;
    }
    Ok(journals)
}

// The journal of a session that the engine has.
fn journal_of(alloc: Global, book: &SessionBook, leases: u32) -> Result<Registry, NoMemory>
    requires few { leases ≤ MOST_LEASES }
    requires leases { book.now.book.leases ≡ leases }
    requires owned { owner_of (state_of book.now.book.entries) ≡ 0 }
    ensures lines { IfOk result (λ made. kept_lines made ≡ lines_of book.now.book.entries) }
    ensures ended { IfOk result IsEndedJournal }
{
    grants_find_nobody();
    lines_tell_the_owner();
    one_owner_at_a_time();
    let entries = Recovery::of(alloc, leases, book.entries())?;
    Ok(Registry::resume(entries, 0))
}
