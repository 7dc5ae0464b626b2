//! Which session is due: at most one deadline a session.

ghost use Rattle.std.specs.Prelude.{◌≡◌, ◌≢◌, ℕ, ◌<◌, ◌≤◌, ◌&&◌, ◌||◌, not, true, false, IfOk, IsTrue, OnOk, OnErr, IfSome, IfNone, IsOk, None, length, replicate, slice_set, position};
ghost use Rattle.std.specs.BTreeSet.{contains};
ghost use Rattle.library_clock.specs.Times.{is_due, deadline_of, is_pair_of, pair_cmp};

use gate_io::NoMemory;
use std::alloc::Global;
use std::collections::BTreeSet;
use std::marker::Model;

/// At most one deadline a session, as a moment in milliseconds.
#[derive(Debug, Drop)]
pub struct Deadlines {
    // at place s the deadline of session s
    at: Vec<Option<u64>>,
    // the same deadlines in order, each a moment and its session
    by_moment: BTreeSet<(u64, u16)>,
}

impl Model for Deadlines {
    ghost use Rattle.std.specs.Prelude.{ℕ, List, Option};
    ghost use Rattle.library_clock.specs.Times.{Mirrors};

    ghost Value = { List (Option ℕ) };

    ghost view = { λ a. a.at.items };

    ghost invariant = { λ a. Mirrors a.at.items a.by_moment };
}

impl Deadlines {
    /// No session has a deadline.
    pub fn new(alloc: Global, sessions: u16) -> Result<Deadlines, NoMemory>
        ensures list { IfOk result (λ deadlines. deadlines ≡ replicate sessions None) }
        ensures sessions { IfOk result (λ deadlines. length deadlines ≡ sessions) }
        ensures none { IfOk result (λ deadlines. (s : ℕ) → deadline_of deadlines s ≡ None) }
    {
        Ok(Deadlines {
            at: vec![in alloc; None; usize::from(sessions)]?,
            by_moment: BTreeSet::new(alloc),
        })
    }

    /// Sets a session's deadline, or takes it away. Taking it away needs no memory, nor does setting
    /// the one that stands.
    pub fn set(&mut self, _alloc: Global, s: u16, at: Option<u64>) -> Result<(), NoMemory>
        requires { s < length self.old }
        ensures ok { OnOk result (self.new ≡ slice_set self.old s at) }
        ensures err { OnErr result (self.new ≡ self.old) }
        ensures deadline { OnOk result (deadline_of self.new s ≡ at) }
        ensures others { (k : ℕ) → k ≢ s → deadline_of self.new k ≡ deadline_of self.old k }
        ensures sessions { length self.new ≡ length self.old }
        ensures away { at ≡ None → IsOk result }
        ensures stands { deadline_of self.old s ≡ at → IsOk result }
    {
        let place = usize::from(s);
        let old = self.at[place];
        if old == at {
            return Ok(());
        }
        put_in(&mut self.by_moment, at, s)?;
        take_out(&mut self.by_moment, old, s);
        self.at[place] = at;
        Ok(())
    }

    /// The least session whose deadline is at most the moment. Its deadline is taken away.
    pub fn due(&mut self, moment: u64) -> Option<u16>
        ensures least { result ≡ position (is_due moment) self.old }
        ensures taken { IfSome result (λ s. self.new ≡ slice_set self.old s None) }
        ensures none { IfNone result (self.new ≡ self.old) }
        ensures sessions { length self.new ≡ length self.old }

        // The same told by session: whose deadline has come, and what becomes of each.
        ensures within { IfSome result (λ s. s < length self.old) }
        ensures due { IfSome result (λ s. IsTrue (is_due moment (deadline_of self.old s))) }
        ensures before { IfSome result (λ s. (k : ℕ) → k < s → is_due moment (deadline_of self.old k) ≡ false) }
        ensures away { IfSome result (λ s. deadline_of self.new s ≡ None) }
        ensures others { IfSome result (λ s. (k : ℕ) → k ≢ s → deadline_of self.new k ≡ deadline_of self.old k) }
        ensures none_due { IfNone result ((k : ℕ) → is_due moment (deadline_of self.old k) ≡ false) }
    {
        let s = least_due(&self.by_moment, moment)?;
        let at = self.at[usize::from(s)].take();
        take_out(&mut self.by_moment, at, s);
        Some(s)
    }
}

fn put_in(by_moment: &mut BTreeSet<(u64, u16)>, at: Option<u64>, s: u16) -> Result<(), NoMemory>
    ensures ok { OnOk result ((q : ℕ × ℕ) → contains pair_cmp by_moment.new q ≡ (is_pair_of at s q || contains pair_cmp by_moment.old q)) }
    ensures err { OnErr result (by_moment.new.keys ≡ by_moment.old.keys) }
    ensures none { at ≡ None → IsOk result }
{
    if let Some(moment) = at {
        by_moment.insert((moment, s))?;
    }
    Ok(())
}

fn take_out(by_moment: &mut BTreeSet<(u64, u16)>, at: Option<u64>, s: u16)
    ensures { (q : ℕ × ℕ) → contains pair_cmp by_moment.new q ≡ (not (is_pair_of at s q) && contains pair_cmp by_moment.old q) }
{
    if let Some(moment) = at {
        by_moment.remove(&(moment, s));
    }
}

/// The least session with a pair up to the moment. It looks only at those, and at one more.
fn least_due(by_moment: &BTreeSet<(u64, u16)>, moment: u64) -> Option<u16>
    requires { (q : ℕ × ℕ) → contains pair_cmp by_moment.now q ≡ true → q.1 ≤ 65535 }
    ensures none { IfNone result ((q : ℕ × ℕ) → contains pair_cmp by_moment.now q ≡ true → moment < q.0) }
    ensures due { IfSome result (λ s. (at : ℕ) × (at ≤ moment) × (contains pair_cmp by_moment.now (at, s) ≡ true)) }
    ensures least { IfSome result (λ s. (q : ℕ × ℕ) → contains pair_cmp by_moment.now q ≡ true → q.0 ≤ moment → s ≤ q.1) }
{
    by_moment
        .range(..=(moment, u16::MAX))
        .map(|pair| pair.1)
        .min()
}
