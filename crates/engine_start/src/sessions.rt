//! The configured sessions, each as it begins.

ghost use Rattle.std.specs.Prelude.{◌≡◌, ◌≤◌, ◌<◌, None, Some, IfOk, IfSome, length};
ghost use Rattle.engine_config.specs.Config.{AreNames, IsConfig, IsDial, dial_of, names_of};
ghost use Rattle.engine_start.specs.Starts.{StartsSessions, configured_book, fresh_book};
ghost use Rattle.session_core.specs.State.{IsDialHeart};
ghost use Rattle.switchboard.specs.Sound.{bound_of};

use engine_config::{Config, DialTo};
use fix_fields::LONGEST_NAME;
use gate_io::NoMemory;
use session_book::{Revival, SessionBook};
use session_core::Names;
use std::alloc::Global;
use switchboard::Switchboard;
use switchboard::laws::boards_stay_ready;

// The number that a session expects first.
pub(crate) const FIRST_NUMBER: u32 = 1;

/// The sessions in order, of which none has a connection.
#[tactic(auto, using(crate::proofs::NewBooks::one_more))]
pub(crate) fn board(alloc: Global, config: &Config) -> Result<Switchboard, NoMemory>
    requires { IsConfig config.now }
    ensures { IfOk result (StartsSessions config.now) }
{
    boards_stay_ready();
    let count = config.names.as_slice().len();
    let mut board = Switchboard::new(alloc);
    for s in 0..count {
        board.add(session(alloc, config, s)?)?;
    }
    Ok(board)
}

// The session at a place.
#[tactic(auto, using(std::proofs::lemmas::List::get_or_default))]
fn session(alloc: Global, config: &Config, s: usize) -> Result<SessionBook, NoMemory>
    requires config { IsConfig config.now }
    requires place { s < length config.now.names }
    ensures book { IfOk result (λ made. made.book ≡ configured_book config.now.leases (names_of config.now s) (dial_of config.now s)) }
    ensures unbound { IfOk result (λ made. bound_of made.book ≡ None) }
{
    let names = config.names.as_slice();
    let dialled = config.dialled.as_slice();
    let made = make_session(alloc, &names[s], &dialled[s], config.leases)?;
    Ok(made)
}

// A session that accepts, or dials to there.
fn make_session(
    alloc: Global,
    names: &Names,
    dialled: &Option<DialTo>,
    leases: u32,
) -> Result<SessionBook, NoMemory>
    requires names { AreNames names.now }
    requires dialled { IfSome dialled.now IsDial }
    ensures book { IfOk result (λ made. made.book ≡ configured_book leases names.now dialled.now) }
    ensures unbound { IfOk result (λ made. bound_of made.book ≡ None) }
{
    let us = Vec::from_slice(alloc, names.us.as_slice())?;
    let them = Vec::from_slice(alloc, names.them.as_slice())?;
    match dialled {
        None => SessionBook::new(alloc, us, them, leases),
        Some(dial) => dialling(alloc, us, them, dial.heart, leases),
    }
}

// A session of these names that dials with this HeartBtInt, in seconds.
#[tactic(auto, using(crate::proofs::NewBooks::begun), unfolding(lease_core::specs::State::state_of))]
fn dialling(
    alloc: Global,
    us: Vec<u8>,
    them: Vec<u8>,
    heart: u32,
    leases: u32,
) -> Result<SessionBook, NoMemory>
    requires us { length us.items ≤ LONGEST_NAME }
    requires them { length them.items ≤ LONGEST_NAME }
    requires heart { IsDialHeart heart }
    ensures book { IfOk result (λ made. made.book ≡ fresh_book us.items them.items (Some heart) leases) }
    ensures unbound { IfOk result (λ made. bound_of made.book ≡ None) }
{
    let revival = Revival::new(alloc, leases)?;
    let dials = Some(heart);
    let made = SessionBook::resume(alloc, revival, us, them, dials, FIRST_NUMBER, 0)?;
    Ok(made)
}
