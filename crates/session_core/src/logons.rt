//! The Logon of a connection that is bound now.

ghost use Rattle.std.specs.Prelude.{◌≡◌, ◌≤◌, [], IfOk, OnOk, OnErr, vec_len, vec_capacity};
ghost use Rattle.std.specs.FinMap as map;
ghost use Rattle.seq_gaps.specs.Line.{IsNumber};
ghost use Rattle.session_core.specs.Route.{AreTerms};
ghost use Rattle.session_core.specs.State.{heart_in};
ghost use Rattle.session_core.specs.Receive.{outcome_of_logon, outcome_of_answer, outcome_of_good_answer, low_effects, outcome_of_welcome, greeting, line_at};

use crate::acts::{Act, Admin, Effects};
use crate::carry::{OWN_ACTS, handle};
use crate::causes::Cause;
use crate::inbound::Inbound;
use crate::phases::Phase;
use crate::replies::low_logout;
use crate::routing::Terms;
use crate::said::LONGEST_HEARTBEAT;
use crate::tasks::Task;
use gate_io::{NoMemory, Rows};
use std::alloc::Global;

/// A Logon with these terms: where its number is low a Logout, and the connection ends; else it is
/// answered, behind a reset where it asks for one, and its number goes to the line. Without memory
/// the line is as it was. FIX 4.4, volume 2, "Logon".
#[tactic(auto, unfolding(crate::specs::Receive::outcome_of_logon))]
pub(crate) fn log_on(
    alloc: Global,
    line: &mut Inbound,
    terms: Terms,
) -> Result<(Phase, Effects), NoMemory>
    requires { AreTerms terms }
    ensures phase { IfOk result (λ r. r.0 ≡ (outcome_of_logon line.old terms).phase) }
    ensures heart { IfOk result (λ r. heart_in r.0 ≤ LONGEST_HEARTBEAT) }
    ensures effects { IfOk result (λ r. r.1 ≡ (outcome_of_logon line.old terms).effects) }
    ensures line { OnOk result (line.new ≡ (outcome_of_logon line.old terms).line) }
    ensures err { OnErr result (line.new ≡ line.old) }
{
    let expected = if terms.reset { 1 } else { line.next_number() };
    if terms.number < expected {
        let effects = turn_away(alloc, expected, terms.number)?;
        return Ok((Phase::Off, effects));
    }
    let effects = welcome(alloc, line, terms)?;
    Ok((Phase::On { heart: terms.heart }, effects))
}

/// The answer to the session's own Logon has this number: where it is low a Logout, and the
/// connection ends; else it goes to the line with nothing left to do. Without memory the line is as it
/// was. FIX 4.4, volume 2, "Logon".
#[tactic(auto, unfolding(crate::specs::Receive::outcome_of_answer))]
pub(crate) fn take_answer(
    alloc: Global,
    line: &mut Inbound,
    heart: u32,
    number: u32,
) -> Result<Effects, NoMemory>
    requires { IsNumber number }
    ensures effects { IfOk result (λ effects. effects ≡ (outcome_of_answer line.old heart number).effects) }
    ensures line { OnOk result (line.new ≡ (outcome_of_answer line.old heart number).line) }
    ensures err { OnErr result (line.new ≡ line.old) }
{
    let expected = line.next_number();
    if number < expected {
        return turn_away(alloc, expected, number);
    }
    let mut acts = Vec::with_capacity(alloc, OWN_ACTS + line.most_held())?;
    handle(line, &mut acts, number, Task::Nothing);
    Ok(Effects {
        acts: Rows::of(acts),
        end: None,
    })
}

/// A low number is answered with a Logout, whatever PossDupFlag (43) says.
fn turn_away(alloc: Global, expected: u32, got: u32) -> Result<Effects, NoMemory>
    ensures { IfOk result (λ effects. effects ≡ low_effects expected got) }
{
    let mut acts = Vec::with_capacity(alloc, 1)?;
    acts.push_reserved(Act::Send(low_logout(alloc, expected, got)?));
    Ok(Effects {
        acts: Rows::of(acts),
        end: Some(Cause::LowNumber { expected, got }),
    })
}

/// The Logon is answered with the same HeartBtInt (108).
fn welcome(alloc: Global, line: &mut Inbound, terms: Terms) -> Result<Effects, NoMemory>
    requires { IsNumber terms.number }
    ensures effects { IfOk result (λ effects. effects ≡ (outcome_of_welcome line.old terms).effects) }
    ensures line { OnOk result (line.new ≡ (outcome_of_welcome line.old terms).line) }
    ensures err { OnErr result (line.new ≡ line.old) }
{
    let mut acts = Vec::with_capacity(alloc, OWN_ACTS + line.most_held())?;
    greet(line, &mut acts, terms);
    handle(line, &mut acts, terms.number, Task::Nothing);
    Ok(Effects {
        acts: Rows::of(acts),
        end: None,
    })
}

/// Begins the line again where the Logon asks for it, and answers it.
fn greet(line: &mut Inbound, acts: &mut Vec<Act>, terms: Terms)
    requires empty { acts.old.items ≡ [] }
    requires room { OWN_ACTS ≤ vec_capacity acts.old }
    ensures line { line.new ≡ line_at line.old terms }
    ensures acts { acts.new.items ≡ greeting terms }
    ensures len { vec_len acts.new ≤ 2 }
    ensures held { map.len line.new.held ≤ map.len line.old.held }
    ensures capacity { vec_capacity acts.new ≡ vec_capacity acts.old }
{
    if terms.reset {
        line.restart();
        acts.push_reserved(Act::Reset);
    }
    acts.push_reserved(Act::Send(Admin::Logon {
        heart: terms.heart,
        reset: terms.reset,
    }));
}
