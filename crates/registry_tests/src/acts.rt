//! Calls on a registry as data, made where their conditions hold.
ghost use Rattle.std.specs.Prelude.{◌≡◌, ◌≤◌, ◌+◌, IsTrue, OnOk};
ghost use Rattle.lease_core.specs.Lines.{lines_of, missing_sends, is_released};
ghost use Rattle.lease_core.specs.Showable.{IsShowable, CanTimeOut};
ghost use Rattle.registry_tests.specs.NextWord.{names_heir, names_library, is_next_word};

use gate_io::NoMemory;
use lease_core::laws::lines_tell_the_owner;
use lease_core::{MOST_LIBRARIES, Registry, Reply, Shown, Standing, Word};

/// A lease word in numbers.
pub fn word(lease: u32, owner: u8, standing: Standing, count: u32) -> Word
    ensures { result ≡ record { lease = lease; owner = owner; standing = standing; count = count } }
{
    Word {
        lease,
        owner,
        standing,
        count,
    }
}

/// A call on a registry. `Restart` is a bind and the reset directly behind it.
#[derive(Clone, Copy, Debug)]
pub enum Act {
    Arrive,
    Admin,
    Bind(u32),
    Plan(u64, u64, u64),
    Leave(u32),
    Restart(u32),
    Request(u8, u32, u64),
    Show(Word, u64),
    Timeout(Word, u64),
    Lapse,
}

/// What the call answered, or that it would have been no lawful one.
#[derive(Clone, Copy, Debug, PartialEq, Eq)]
pub enum Answer {
    Done,
    Place(u64),
    Series(u32),
    To(Reply),
    Of(Shown),
    Unlawful,
}

/// Makes the call where its conditions hold.
pub fn play(registry: &mut Registry, act: Act) -> Result<Answer, NoMemory>
    ensures { registry.new.leases ≡ registry.old.leases }
{
    let bound = registry.bound();
    let waits = registry.reserved().is_some();
    registry.reserve(2)?;
    Ok(match act {
        Act::Arrive => Answer::Place(registry.arrive()),
        Act::Admin => Answer::Place(registry.admin()),
        Act::Bind(c) if bound.is_none() => {
            registry.bind(c);
            Answer::Done
        }
        Act::Plan(begin, last, at) if bound.is_some() => {
            registry.plan(begin, last, at);
            Answer::Done
        }
        Act::Leave(c) if bound == Some(c) => {
            registry.leave(c);
            Answer::Done
        }
        Act::Restart(c) if bound.is_none() && registry.series().0 < u32::MAX => {
            registry.bind(c);
            Answer::Series(registry.reset())
        }
        Act::Request(library, nr, from) if 1 <= library && library <= MOST_LIBRARIES => Answer::To(
            registry.request(library, nr, from),
        ),
        Act::Lapse if waits => {
            registry.lapse();
            Answer::Done
        }
        Act::Show(w, until) => return play_show(registry, w, until),
        Act::Timeout(w, until) => return play_timeout(registry, w, until),
        _ => Answer::Unlawful,
    })
}

fn play_show(registry: &mut Registry, w: Word, until: u64) -> Result<Answer, NoMemory>
    ensures { registry.new.leases ≡ registry.old.leases }
{
    reserve_for(registry, w)?;
    if !can_show(registry, w) {
        return Ok(Answer::Unlawful);
    }
    Ok(Answer::Of(registry.show(w, until)))
}

fn play_timeout(registry: &mut Registry, w: Word, until: u64) -> Result<Answer, NoMemory>
    ensures { registry.new.leases ≡ registry.old.leases }
{
    reserve_for(registry, w)?;
    if !can_time_out(registry, w) {
        return Ok(Answer::Unlawful);
    }
    Ok(Answer::Of(registry.timeout(w, until)))
}

/// Makes room for what the word shows.
fn reserve_for(registry: &mut Registry, w: Word) -> Result<(), NoMemory>
    ensures entries { registry.new.entries ≡ registry.old.entries }
    ensures leases { registry.new.leases ≡ registry.old.leases }
    ensures room { OnOk result (missing_sends (lines_of registry.old.entries) w + 2 ≤ registry.new.spare) }
{
    let missing = w.count.saturating_sub(registry.word().count);
    registry.reserve(missing as usize + 2)
}

/// Whether the word may be shown, as far as the registry's own word tells it.
fn can_show(registry: &Registry, w: Word) -> bool
    ensures { IsTrue result → IsShowable (lines_of registry.now.entries) w }
{
    is_next_word(registry.word(), w)
}

/// Whether the word may be the one that stood there as the engine took the session back.
fn can_time_out(registry: &Registry, w: Word) -> bool
    ensures { IsTrue result → CanTimeOut (lines_of registry.now.entries) w }
{
    lines_tell_the_owner();
    if registry.owner().0 == 0 || matches!(w.standing, Standing::Revoked) {
        return false;
    }
    can_show(registry, w)
}

fn is_next_word(last: Word, w: Word) -> bool
    ensures { result ≡ is_next_word last w }
{
    let count = w.count;
    w.lease == last.lease && last.count <= count && (names_heir(w) || names_library(last, w))
}

fn names_heir(w: Word) -> bool
    ensures { result ≡ names_heir w }
{
    is_released(w.standing) && 1 <= w.owner && w.owner <= MOST_LIBRARIES
}

fn names_library(last: Word, w: Word) -> bool
    ensures { result ≡ names_library last w }
{
    !is_released(last.standing) && w.owner == last.owner
}

fn is_released(standing: Standing) -> bool
    ensures { result ≡ is_released standing }
{
    matches!(standing, Standing::Released)
}
